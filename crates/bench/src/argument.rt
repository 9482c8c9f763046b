// The arguments of a command, each read from the next word by its kind.
use crate::bench::BUFFER;
use crate::why::Why;
use crate::word::Words;
use crate::{number, pairs};
use burst::Region;
use descriptors::record::{LIMIT, Owner, TransferDirection};
use psram::chip::Chip;

// The room of a step's output where it is left out.
const ROOM: usize = 4095;

fn up_to(word: &[u8], most: usize) -> Result<usize, Why> {
    let v = number::read(word)?;
    if most < v {
        return Err(Why::OutOfRange);
    }
    Ok(v)
}

// A number up to `most`, or the word `none`.
fn or_none(word: &[u8], none: &[u8], most: u16) -> Result<Option<u16>, Why> {
    if word == none {
        return Ok(None);
    }
    Ok(Some(u16::try_from(up_to(word, most as usize)?)?))
}

impl Words<'_> {
    fn argument(&mut self) -> Result<&[u8], Why> {
        self.word().ok_or(Why::Missing)
    }

    pub fn number(&mut self) -> Result<usize, Why> {
        number::read(self.argument()?)
    }

    pub fn number32(&mut self) -> Result<u32, Why> {
        Ok(u32::try_from(self.number()?)?)
    }

    pub fn number16(&mut self) -> Result<u16, Why> {
        Ok(u16::try_from(self.number()?)?)
    }

    // A record's number.
    pub fn record(&mut self) -> Result<usize, Why> {
        up_to(self.argument()?, LIMIT - 1)
    }

    // A buffer's length.
    pub fn length(&mut self) -> Result<usize, Why> {
        up_to(self.argument()?, BUFFER)
    }

    pub fn next_record(&mut self) -> Result<Option<u16>, Why> {
        or_none(self.argument()?, b"-", 65534)
    }

    // The record that the device is on.
    pub fn device(&mut self) -> Result<Option<u16>, Why> {
        or_none(self.argument()?, b"stopped", 65535)
    }

    pub fn suc_eof(&mut self) -> Result<bool, Why> {
        match self.argument()? {
            b"-" => Ok(false),
            b"eof" => Ok(true),
            _ => Err(Why::NoSuchWord),
        }
    }

    pub fn owner(&mut self) -> Result<Owner, Why> {
        match self.argument()? {
            b"cpu" => Ok(Owner::Cpu),
            b"dma" => Ok(Owner::Dma),
            _ => Err(Why::NoSuchWord),
        }
    }

    pub fn direction(&mut self) -> Result<TransferDirection, Why> {
        match self.argument()? {
            b"in" => Ok(TransferDirection::In),
            b"out" => Ok(TransferDirection::Out),
            _ => Err(Why::NoSuchWord),
        }
    }

    pub fn chip(&mut self) -> Result<Chip, Why> {
        match self.argument()? {
            b"ordinary" => Ok(Chip::Ordinary),
            b"s2" => Ok(Chip::S2),
            _ => Err(Why::NoSuchWord),
        }
    }

    // Two addresses.
    pub fn region(&mut self) -> Result<Region, Why> {
        Ok(Region {
            start: self.number()? as u64,
            end: self.number()? as u64,
        })
    }

    // Bytes, to the data's front.
    pub fn bytes<'a>(&mut self, data: &'a mut [u8]) -> Result<&'a [u8], Why> {
        pairs::read(self.argument()?, data)
    }

    // Whether the word `eof` stands there.
    pub fn eof(&mut self) -> Result<bool, Why> {
        match self.word() {
            None => Ok(false),
            Some(b"eof") => Ok(true),
            Some(_) => Err(Why::NoSuchWord),
        }
    }

    pub fn room(&mut self) -> Result<usize, Why> {
        match self.word() {
            None => Ok(ROOM),
            Some(word) => number::read(word),
        }
    }

    // There is no further word.
    pub fn end(&mut self) -> Result<(), Why> {
        match self.word() {
            None => Ok(()),
            Some(_) => Err(Why::Surplus),
        }
    }
}
