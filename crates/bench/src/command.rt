// The commands, and how a line spells one.
use crate::why::Why;
use crate::word::Words;
use burst::Region;
use descriptors::record::{DmaDescriptor, TransferDirection};
use psram::chip::Chip;

// The most bytes of a line.
pub const LINE: usize = 16384;

#[derive(Clone, Copy)]
pub enum Command<'a> {
    Record {
        i: usize,
        descriptor: DmaDescriptor,
    },
    New {
        direction: TransferDirection,
        n: usize,
        len: usize,
    },
    Align(Align),
    Cut(Range),
    Pieces {
        n: usize,
        range: Range,
        store: usize,
    },
    Between {
        earlier: u32,
        later: u32,
    },
    Ring(OfRing<'a>),
    Receive(OfReceive<'a>),
    Transmit(OfTransmit<'a>),
}

// What the alignment check asks for.
#[derive(Clone, Copy)]
pub struct Align {
    pub address: u32,
    pub length: u32,
    pub direction: TransferDirection,
    pub internal: Region,
    pub external: Region,
    pub internal_alignment: u32,
    pub external_alignment: u32,
}

impl Align {
    fn read(words: &mut Words) -> Result<Align, Why> {
        Ok(Align {
            address: words.number32()?,
            length: words.number32()?,
            direction: words.direction()?,
            internal: words.region()?,
            external: words.region()?,
            internal_alignment: words.number32()?,
            external_alignment: words.number32()?,
        })
    }
}

// A range of external memory.
#[derive(Clone, Copy)]
pub struct Range {
    pub address: u32,
    pub length: u32,
    pub chip: Chip,
}

impl Range {
    fn read(words: &mut Words) -> Result<Range, Why> {
        Ok(Range {
            address: words.number32()?,
            length: words.number32()?,
            chip: words.chip()?,
        })
    }
}

// On a ring of either direction.
#[derive(Clone, Copy)]
pub enum OfRing<'a> {
    Prepare,
    Available,
    Cursor { i: usize, offset: usize },
    Tally(u32),
    Device(Option<u16>),
    Bytes { at: usize, bytes: &'a [u8] },
    Show,
}

#[derive(Clone, Copy)]
pub enum OfReceive<'a> {
    Peek,
    PeekUntilEof,
    Consume(usize),
    Pop(usize),
    Fill { bytes: &'a [u8], eof: bool },
}

#[derive(Clone, Copy)]
pub enum OfTransmit<'a> {
    Prefilled(usize),
    Prefill(&'a [u8]),
    OfferPrefill,
    CommitPrefill(usize),
    Push(&'a [u8]),
    Offer,
    Commit(usize),
    Advance(usize),
    Send(usize),
}

fn descriptor(words: &mut Words) -> Result<DmaDescriptor, Why> {
    Ok(DmaDescriptor {
        buffer: words.number32()?,
        size: words.number16()?,
        length: words.number16()?,
        suc_eof: words.suc_eof()?,
        owner: words.owner()?,
        next: words.next_record()?,
    })
}

fn record<'a>(words: &mut Words) -> Result<Command<'a>, Why> {
    Ok(Command::Record {
        i: words.record()?,
        descriptor: descriptor(words)?,
    })
}

fn new<'a>(direction: TransferDirection, words: &mut Words) -> Result<Command<'a>, Why> {
    Ok(Command::New {
        direction,
        n: words.number()?,
        len: words.length()?,
    })
}

fn pieces<'a>(words: &mut Words) -> Result<Command<'a>, Why> {
    Ok(Command::Pieces {
        n: words.number()?,
        range: Range::read(words)?,
        store: words.number()?,
    })
}

fn between<'a>(words: &mut Words) -> Result<Command<'a>, Why> {
    Ok(Command::Between {
        earlier: words.number32()?,
        later: words.number32()?,
    })
}

fn cursor<'a>(words: &mut Words) -> Result<OfRing<'a>, Why> {
    Ok(OfRing::Cursor {
        i: words.number()?,
        offset: words.number()?,
    })
}

fn bytes<'a>(words: &mut Words, data: &'a mut [u8]) -> Result<OfRing<'a>, Why> {
    Ok(OfRing::Bytes {
        at: words.number()?,
        bytes: words.bytes(data)?,
    })
}

fn fill<'a>(words: &mut Words, data: &'a mut [u8]) -> Result<OfReceive<'a>, Why> {
    Ok(OfReceive::Fill {
        bytes: words.bytes(data)?,
        eof: words.eof()?,
    })
}

// The command that a name and the words behind it spell.
fn named<'a>(name: &[u8], words: &mut Words, data: &'a mut [u8]) -> Result<Command<'a>, Why> {
    Ok(match name {
        b"available" => Command::Ring(OfRing::Available),
        b"show" => Command::Ring(OfRing::Show),
        b"prepare" => Command::Ring(OfRing::Prepare),
        b"cursor" => Command::Ring(cursor(words)?),
        b"tally" => Command::Ring(OfRing::Tally(words.number32()?)),
        b"device" => Command::Ring(OfRing::Device(words.device()?)),
        b"bytes" => Command::Ring(bytes(words, data)?),
        b"peek" => Command::Receive(OfReceive::Peek),
        b"peek_until_eof" => Command::Receive(OfReceive::PeekUntilEof),
        b"consume" => Command::Receive(OfReceive::Consume(words.number()?)),
        b"pop" => Command::Receive(OfReceive::Pop(words.number()?)),
        b"fill" => Command::Receive(fill(words, data)?),
        b"push" => Command::Transmit(OfTransmit::Push(words.bytes(data)?)),
        b"offer" => Command::Transmit(OfTransmit::Offer),
        b"commit" => Command::Transmit(OfTransmit::Commit(words.number()?)),
        b"advance" => Command::Transmit(OfTransmit::Advance(words.number()?)),
        b"send" => Command::Transmit(OfTransmit::Send(words.room()?)),
        b"prefilled" => Command::Transmit(OfTransmit::Prefilled(words.number()?)),
        b"prefill" => Command::Transmit(OfTransmit::Prefill(words.bytes(data)?)),
        b"offer_prefill" => Command::Transmit(OfTransmit::OfferPrefill),
        b"commit_prefill" => Command::Transmit(OfTransmit::CommitPrefill(words.number()?)),
        b"record" => record(words)?,
        b"rx" => new(TransferDirection::In, words)?,
        b"tx" => new(TransferDirection::Out, words)?,
        b"align" => Command::Align(Align::read(words)?),
        b"cut" => Command::Cut(Range::read(words)?),
        b"pieces" => pieces(words)?,
        b"between" => between(words)?,
        _ => return Err(Why::Unknown),
    })
}

// The command of a line; none where it is a comment or has no word. Bytes among its arguments go to the data's front.
pub fn read<'a>(line: &[u8], data: &'a mut [u8]) -> Result<Option<Command<'a>>, Why> {
    if LINE < line.len() {
        return Err(Why::TooLong);
    }
    if line.starts_with(b"#") {
        return Ok(None);
    }
    let mut words = Words::of(line);
    let Some(name) = words.word() else {
        return Ok(None);
    };
    let command = named(name, &mut words, data)?;
    words.end()?;
    Ok(Some(command))
}
