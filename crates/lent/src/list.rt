// `new` over a lent list of plain records, for both directions. The number of records is the list's length.
ghost use Rattle.std.specs.Prelude.{◌≡◌, ◌+◌, ◌/◌, ◌%◌, ◌≤◌, ◌<◌};
ghost use Rattle.descriptors.specs.Split.{split_of, size_of, laid};
ghost use Rattle.descriptors.specs.Record.{limit, most, with_buffer, with_size, with_length};
ghost use Rattle.descriptors.specs.Ring.{split_done};
ghost use Rattle.lent.specs.List.{new_over, new_first, new_with, room};

use descriptors::record::{DmaDescriptor, LIMIT, TransferDirection};
use descriptors::refusal::DmaBufError;
use descriptors::ring::Kept;
use descriptors::split;

// Whether `new` takes len bytes over n records, or why not.
fn judge_new(n: usize, len: usize) -> Result<(), DmaBufError>
    ensures { result ≡ split_done (split_of n len) }
{
    split::split_of(n, len)?;
    Ok(())
}

#[tactic(auto, unfolding(descriptors::specs::Split::size_of))]
fn size_at(n: usize, len: usize, i: usize) -> u16
    requires { (n ≤ limit) × (len / n + len % n ≤ most) × (i < n) }
    ensures { result ≡ size_of n len i }
{
    if i + 1 == n {
        return (len / n + len % n) as u16;
    }
    (len / n) as u16
}

fn placed(d: DmaDescriptor, buffer: u32, size: u16, length: u16) -> DmaDescriptor
    ensures { result ≡ with_length length (with_size size (with_buffer buffer d)) }
{
    DmaDescriptor {
        buffer,
        size,
        length,
        ..d
    }
}

// Record i of n, with its part of the buffer's len bytes.
#[tactic(auto, unfolding(descriptors::specs::Split::start_of))]
fn split_record(
    dir: TransferDirection,
    n: usize,
    len: usize,
    i: usize,
    d: DmaDescriptor,
) -> DmaDescriptor
    requires { (n ≤ limit) × (len / n + len % n ≤ most) × (i < n) }
    ensures { result ≡ laid dir n len i d }
{
    let chunk = len / n;
    let buffer = (i * chunk) as u32;
    let size = size_at(n, len, i);
    match dir {
        TransferDirection::In => placed(d, buffer, size, d.length),
        TransferDirection::Out => placed(d, buffer, size, chunk as u16),
    }
}

// Each record of the list gets its part of the buffer's len bytes, or none is written and the refusal is answered.
pub fn new_over(
    dir: TransferDirection,
    ds: &mut [DmaDescriptor],
    len: usize,
) -> Result<(), DmaBufError>
    ensures { (result ≡ (new_over dir ds.old len).answer) × (ds.new ≡ (new_over dir ds.old len).ring.descriptors) }
{
    let n = ds.len();
    judge_new(n, len)?;
    for i in 0..n {
        ds[i] = split_record(dir, n, len, i, ds[i]);
    }
    Ok(())
}

// One record more than a ring has.
pub const ROOM: usize = LIMIT + 1;

#[derive(Clone, Copy, Debug, PartialEq, Eq)]
pub struct Records {
    pub list: [DmaDescriptor; ROOM],
}

// `new` over the first n of some records by value: they are lent for the call.
fn new_first(dir: TransferDirection, ds: Records, n: usize, len: usize) -> Kept<Records, ()>
    requires { n ≤ room }
    ensures { result ≡ new_first dir ds n len }
{
    let mut list = ds.list;
    let answer = new_over(dir, &mut list[..n], len);
    Kept {
        ring: Records { list },
        answer,
    }
}

// The same for every n. More records than there are is 4.
pub fn new_with(dir: TransferDirection, ds: Records, n: usize, len: usize) -> Kept<Records, ()>
    ensures { result ≡ new_with dir ds n len }
{
    if ROOM < n {
        return Kept {
            ring: ds,
            answer: Err(DmaBufError::TooManyDescriptors),
        };
    }
    new_first(dir, ds, n, len)
}
