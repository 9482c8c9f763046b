// The state, as the commands that set it up again.
ghost use Rattle.std.specs.Prelude.{Some};
ghost use Rattle.std.specs.Fmt.{DisplaysOnOk, ◌++?◌};

use crate::bench::Ring;
use descriptors::cells;
use descriptors::record::{DmaDescriptor, Owner, TransferDirection};
use std::fmt;

#[derive(Clone, Copy)]
pub struct Show<'a> {
    pub ring: Ring,
    pub starts: &'a [u32],
    pub cells: &'a [u16],
}

// A text, and a number behind it. By itself and in place, since `write!` sets a formatter's options anew for each of its parts.
#[inline(always)]
pub fn counted<D: fmt::Display + Drop, W: fmt::Write>(
    f: &mut fmt::Formatter<W>,
    text: &str,
    number: D,
) -> fmt::Result
    ensures { DisplaysOnOk W.write_str_gives f.old result (Some text.now ++? D.output number) f.new }
{
    f.write_str(text)?;
    number.fmt(f)
}

// A record's number, or the word for none.
#[derive(Clone, Copy)]
struct OrNone<'a>(Option<u16>, &'a str);

impl fmt::Display for OrNone<'_> {
    #[inline(always)]
    fn fmt<W: fmt::Write>(&self, f: &mut fmt::Formatter<W>) -> fmt::Result {
        match self.0 {
            Some(i) => i.fmt(f),
            None => f.write_str(self.1),
        }
    }
}

// A record on a line of its own, as `record` sets it.
#[derive(Clone, Copy)]
struct Record(usize, DmaDescriptor);

impl fmt::Display for Record {
    fn fmt<W: fmt::Write>(&self, f: &mut fmt::Formatter<W>) -> fmt::Result {
        let i = self.0;
        let DmaDescriptor {
            buffer,
            size,
            length,
            suc_eof,
            owner,
            next,
        } = self.1;
        counted(f, "\nrecord ", i)?;
        counted(f, " ", buffer)?;
        counted(f, " ", size)?;
        counted(f, " ", length)?;
        match (suc_eof, owner) {
            (false, Owner::Cpu) => f.write_str(" - cpu ")?,
            (false, Owner::Dma) => f.write_str(" - dma ")?,
            (true, Owner::Cpu) => f.write_str(" eof cpu ")?,
            (true, Owner::Dma) => f.write_str(" eof dma ")?,
        }
        OrNone(next, "-").fmt(f)
    }
}

// The ring itself; the count before `prepare` stands in a transmit ring alone.
impl fmt::Display for Ring {
    fn fmt<W: fmt::Write>(&self, f: &mut fmt::Formatter<W>) -> fmt::Result {
        let count = self.head.count;
        let len = self.len;
        match self.direction {
            TransferDirection::In => write!(f, "rx {count} {len}"),
            TransferDirection::Out => {
                let pre_filled = self.head.pre_filled;
                write!(f, "tx {count} {len}\nprefilled {pre_filled}")
            }
        }
    }
}

impl fmt::Display for Show<'_> {
    fn fmt<W: fmt::Write>(&self, f: &mut fmt::Formatter<W>) -> fmt::Result {
        let ring = self.ring;
        let head = ring.head;
        let i = head.descriptor_idx;
        let offset = head.descriptor_offset;
        let tally = head.tally;
        let device = OrNone(ring.device, "stopped");
        write!(
            f,
            "{ring}\ncursor {i} {offset}\ntally {tally}\ndevice {device}"
        )?;
        for i in 0..head.count {
            Record(i, cells::descriptor(self.starts, self.cells, i)).fmt(f)?;
        }
        Ok(())
    }
}
