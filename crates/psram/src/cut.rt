// Head, middle and tail of a range.
ghost use Rattle.std.specs.Prelude.{◌≡◌, ◌+◌, ◌<◌, ltb};
ghost use Rattle.descriptors.specs.Record.{top};
ghost use Rattle.psram.specs.Cut.{line, Sides, grown, head_of, plan_of, plan_for, cut_of};

use crate::chip::{Chip, LINE};
use crate::plan::{Cut, Plan};
use descriptors::record::TOP;
use descriptors::refusal::DmaBufError;

// Whether a range goes past the last address.
pub(crate) fn is_past(address: u32, length: usize) -> bool
    ensures { result ≡ ltb top (address + length) }
{
    TOP < length || TOP - length < address as usize
}

// An outer part that is too short for the device takes a line more.
fn grown(size: usize, least: usize) -> usize
    requires { size < line }
    ensures { result ≡ grown least size }
{
    if size == 0 {
        return 0;
    }
    if size < least {
        return size + LINE;
    }
    size
}

#[tactic(auto, unfolding(crate::specs::Cut::head_of))]
fn head_of(address: u32, length: usize, least: usize, bounce: usize) -> usize
    ensures { result ≡ head_of least bounce address length }
{
    if length <= bounce {
        return length;
    }
    grown((LINE - address as usize % LINE) % LINE, least)
}

#[tactic(auto, unfolding(crate::specs::Cut::plan_of, crate::specs::Cut::tail_of))]
fn planned(address: u32, length: usize, least: usize, bounce: usize) -> Plan
    requires { Sides least bounce }
    ensures { result ≡ plan_of least bounce address length }
{
    let head = head_of(address, length, least, bounce);
    let tail = grown((length - head) % LINE, least);
    Plan {
        head,
        middle: length - head - tail,
        tail,
        bounce,
    }
}

// The plan of a range on a chip.
pub(crate) fn plan(address: u32, length: usize, chip: Chip) -> Plan
    ensures { result ≡ plan_for chip address length }
{
    planned(address, length, chip.least(), chip.bounce())
}

#[tactic(auto, unfolding(crate::specs::Cut::cut_of))]
pub fn cut(address: u32, length: u32, chip: Chip) -> Result<Cut, DmaBufError>
    ensures { result ≡ cut_of chip address length }
{
    if is_past(address, length as usize) {
        return Err(DmaBufError::UnsupportedMemoryRegion);
    }
    let p = plan(address, length as usize, chip);
    Ok(Cut {
        head: p.head,
        middle: p.middle,
        tail: p.tail,
    })
}
