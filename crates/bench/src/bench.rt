// What the console holds, and how a command is carried out on it.
use crate::command::{Align, Command, OfRing, Range};
use crate::fault::Fault;
use crate::output::Output;
use crate::pieces::{Direct, Pieces};
use crate::show::Show;
use crate::why::Why;
use descriptors::cells::CELLS;
use descriptors::record::{LIMIT, TransferDirection};
use descriptors::refusal::DmaBufError;
use descriptors::ring::Head;
use descriptors::{cells, ring};
use device::stand;
use psram::plan::Cut;
use psram::{cut, list};

// The most bytes of a ring's buffer.
pub const BUFFER: usize = 2097152;

// The most bytes of an answer: no ring holds more, so a longer destination or output would get no more.
pub const DATA: usize = 262144;

// The ring that was made last.
#[derive(Clone, Copy)]
pub struct Ring {
    pub direction: TransferDirection,
    pub head: Head,
    pub len: usize,
    pub device: Option<u16>,
}

// The records, the buffer, room for the bytes of an answer, the ring, once one was made, and the output.
#[derive(Drop)]
pub struct Bench {
    pub starts: [u32; LIMIT],
    pub cells: [u16; CELLS],
    pub buffer: [u8; BUFFER],
    pub data: [u8; DATA],
    pub ring: Option<Ring>,
    pub out: Output,
}

pub fn made(ring: &mut Option<Ring>) -> Result<&mut Ring, Why> {
    ring.as_mut().ok_or(Why::NoRing)
}

pub fn made_in(ring: &mut Option<Ring>, direction: TransferDirection) -> Result<&mut Ring, Why> {
    let ring = made(ring)?;
    if ring.direction != direction {
        return Err(Why::OtherWay);
    }
    Ok(ring)
}

fn prepare(s: &[u32], w: &mut [u16], ring: &mut Ring) -> Result<(), DmaBufError> {
    let len = ring.len;
    match ring.direction {
        TransferDirection::In => rx_stream::in_place::prepare_in(s, w, &mut ring.head, len),
        TransferDirection::Out => tx_stream::prepare::prepare_in(s, w, &mut ring.head, len),
    }
}

fn available(s: &[u32], w: &[u16], ring: Ring) -> Result<usize, DmaBufError> {
    match ring.direction {
        TransferDirection::In => rx_stream::in_place::available_in(s, w, ring.head, ring.len),
        TransferDirection::Out => tx_stream::in_place::available_in(s, w, ring.head, ring.len),
    }
}

// The bytes go into the buffer, from index `at` on.
fn put(buffer: &mut [u8], at: usize, bytes: &[u8]) -> Result<(), Why> {
    let end = at.checked_add(bytes.len()).ok_or(Why::PastEnd)?;
    let part = buffer.get_mut(at..end).ok_or(Why::PastEnd)?;
    part.copy_from_slice(bytes);
    Ok(())
}

impl Bench {
    // Carries a command out, and answers it.
    pub fn run(&mut self, command: Command) -> Result<(), Fault> {
        match command {
            Command::Record { i, descriptor } => {
                cells::set_descriptor(&mut self.starts, &mut self.cells, i, descriptor);
                self.out.line("ok");
                Ok(())
            }
            Command::New { direction, n, len } => self.new_ring(direction, n, len),
            Command::Align(a) => self.align(a),
            Command::Cut(range) => self.cut(range),
            Command::Pieces { n, range, store } => self.pieces(n, range, store),
            Command::Between { earlier, later } => {
                let k = ring::between(earlier, later);
                self.out.line(format_args!("between {k}"));
                Ok(())
            }
            Command::Ring(c) => self.on_ring(c),
            Command::Receive(c) => self.receive(c),
            Command::Transmit(c) => self.transmit(c),
        }
    }

    // A new ring over the first n records as they stand; refused, it leaves the one that is there.
    fn new_ring(
        &mut self,
        direction: TransferDirection,
        n: usize,
        len: usize,
    ) -> Result<(), Fault> {
        let made = ring::new_in(direction, &mut self.starts, &mut self.cells, n, len);
        made.answer?;
        let all = len.min(BUFFER);
        self.buffer[..all].fill(0);
        self.ring = Some(Ring {
            direction,
            head: made.ring,
            len,
            device: stand::start(),
        });
        self.out.line("ok");
        Ok(())
    }

    fn align(&mut self, a: Align) -> Result<(), Fault> {
        burst::ensure_buffer_compatible(
            a.address,
            a.length,
            a.direction,
            a.internal,
            a.external,
            a.internal_alignment,
            a.external_alignment,
        )?;
        self.out.line("ok");
        Ok(())
    }

    fn cut(&mut self, range: Range) -> Result<(), Fault> {
        let Cut { head, middle, tail } = cut::cut(range.address, range.length, range.chip)?;
        self.out
            .line(format_args!("head {head} middle {middle} tail {tail}"));
        Ok(())
    }

    fn pieces(&mut self, n: usize, range: Range, store: usize) -> Result<(), Fault> {
        let listed = list::build_descriptor_list_for_psram(
            &mut self.starts,
            &mut self.cells,
            n,
            range.address,
            range.length,
            range.chip,
            store,
        )?;
        self.out.line(Pieces {
            listed,
            direct: Direct::of(range),
            starts: &self.starts,
            cells: &self.cells,
        });
        Ok(())
    }

    // On a ring of either direction.
    fn on_ring(&mut self, command: OfRing) -> Result<(), Fault> {
        let ring = made(&mut self.ring)?;
        match command {
            OfRing::Prepare => prepare(&self.starts, &mut self.cells, ring)?,
            OfRing::Cursor { i, offset } => {
                ring.head.descriptor_idx = i;
                ring.head.descriptor_offset = offset;
            }
            OfRing::Tally(tally) => ring.head.tally = tally,
            OfRing::Device(device) => ring.device = device,
            OfRing::Bytes { at, bytes } => {
                let len = ring.len.min(BUFFER);
                put(&mut self.buffer[..len], at, bytes)?;
            }
            OfRing::Available => {
                let k = available(&self.starts, &self.cells, *ring)?;
                self.out.line(format_args!("available {k}"));
                return Ok(());
            }
            OfRing::Show => {
                self.out.line(Show {
                    ring: *ring,
                    starts: &self.starts,
                    cells: &self.cells,
                });
                return Ok(());
            }
        }
        self.out.line("ok");
        Ok(())
    }
}
