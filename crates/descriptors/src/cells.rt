// The words in which a ring stores its records: a start for each record, and the cells, a block for each other field. A field is
// read and written here alone, one cell at a time, in the Rust's names. A number that is no record's changes nothing.
ghost use Rattle.std.specs.Prelude.{◌≡◌, ◌<◌, if◌then◌else◌, Some, None};
ghost use Rattle.descriptors.specs.Cells.{cell, put, numbered, next_cell, owner_of, eof_of, next_of, owner_cell, eof_cell, record_at, start_at, put_start, put_size, put_length, put_next, put_owner, put_eof, put_record};

use crate::record::{DmaDescriptor, LIMIT, Owner};

pub const BLOCKS: usize = 5;

pub const CELLS: usize = BLOCKS * LIMIT;

const SIZE: usize = 0;

const LENGTH: usize = 1;

const NEXT: usize = 2;

const OWNER: usize = 3;

const EOF: usize = 4;

// Cell i of a block.
fn cell(w: &[u16], block: usize, i: usize) -> usize
    ensures { (result ≡ cell block w.now i) × (result < 65536) }
{
    if BLOCKS <= block || LIMIT <= i {
        return 0;
    }
    match w.get(LIMIT * block + i) {
        Some(c) => usize::from(*c),
        None => 0,
    }
}

// The one store.
#[tactic(auto, unfolding(crate::specs::Cells::put))]
fn put(w: &mut [u16], block: usize, i: usize, v: u16)
    ensures { w.new ≡ put block w.old i v }
{
    if w.len() == CELLS && block < BLOCKS && i < LIMIT {
        w[LIMIT * block + i] = v;
    }
}

impl From<Owner> for u16 {
    ghost from_gives = { λ owner c. c ≡ owner_cell owner };

    fn from(owner: Owner) -> u16 {
        match owner {
            Owner::Cpu => 0,
            Owner::Dma => 1,
        }
    }
}

// The cell of a next, if one can hold it.
fn next_cell(next: Option<u16>) -> Option<u16>
    ensures { result ≡ (if numbered next then Some (next_cell next) else None) }
{
    match next {
        None => Some(0),
        Some(j) => j.checked_add(1),
    }
}

// The words of a ring by value.
#[derive(Clone, Copy, Debug)]
pub struct Words {
    pub starts: [u32; LIMIT],
    pub cells: [u16; CELLS],
}

// ---- a record's fields, read

pub fn start_of(s: &[u32], i: usize) -> u32
    ensures { result ≡ start_at s.now i }
{
    match s.get(i) {
        Some(start) => *start,
        None => 0,
    }
}

pub fn size_of(w: &[u16], i: usize) -> usize
    ensures { (result ≡ cell 0 w.now i) × (result < 65536) }
{
    cell(w, SIZE, i)
}

pub fn length_of(w: &[u16], i: usize) -> usize
    ensures { (result ≡ cell 1 w.now i) × (result < 65536) }
{
    cell(w, LENGTH, i)
}

pub fn owner_of(w: &[u16], i: usize) -> Owner
    ensures { result ≡ owner_of (cell 3 w.now i) }
{
    match cell(w, OWNER, i) {
        0 => Owner::Cpu,
        _ => Owner::Dma,
    }
}

pub fn suc_eof_of(w: &[u16], i: usize) -> bool
    ensures { result ≡ eof_of (cell 4 w.now i) }
{
    cell(w, EOF, i) != 0
}

pub fn next_of(w: &[u16], i: usize) -> Option<u16>
    ensures { result ≡ next_of (cell 2 w.now i) }
{
    match cell(w, NEXT, i) {
        0 => None,
        c => Some((c - 1) as u16),
    }
}

// ---- a record's fields, written

pub fn set_buffer(s: &mut [u32], i: usize, start: u32)
    ensures { s.new ≡ put_start s.old i start }
{
    if i < s.len() {
        s[i] = start;
    }
}

pub fn set_size(w: &mut [u16], i: usize, size: u16)
    ensures { w.new ≡ put_size w.old i size }
{
    put(w, SIZE, i, size);
}

pub fn set_length(w: &mut [u16], i: usize, length: u16)
    ensures { w.new ≡ put_length w.old i length }
{
    put(w, LENGTH, i, length);
}

pub fn set_suc_eof(w: &mut [u16], i: usize, eof: bool)
    ensures { w.new ≡ put_eof w.old i eof }
{
    put(w, EOF, i, u16::from(eof));
}

pub fn set_owner(w: &mut [u16], i: usize, owner: Owner)
    ensures { w.new ≡ put_owner w.old i owner }
{
    put(w, OWNER, i, u16::from(owner));
}

pub fn set_next(w: &mut [u16], i: usize, next: Option<u16>)
    ensures { w.new ≡ put_next w.old i next }
{
    if let Some(c) = next_cell(next) {
        put(w, NEXT, i, c);
    }
}

// Record i leads to record `to`.
pub fn link_to(w: &mut [u16], i: usize, to: usize)
    ensures { w.new ≡ put_next w.old i (Some to) }
{
    if let Ok(to) = u16::try_from(to) {
        set_next(w, i, Some(to));
    }
}

// ---- a plain record, read and written

pub fn descriptor<'a>(s: &'a [u32], w: &'a [u16], i: usize) -> DmaDescriptor
    ensures { result ≡ record_at s.now w.now i }
{
    DmaDescriptor {
        buffer: start_of(s, i),
        size: size_of(w, i) as u16,
        length: length_of(w, i) as u16,
        suc_eof: suc_eof_of(w, i),
        owner: owner_of(w, i),
        next: next_of(w, i),
    }
}

pub fn set_descriptor(s: &mut [u32], w: &mut [u16], i: usize, d: DmaDescriptor)
    ensures { (s.new ≡ put_start s.old i d.buffer) × (w.new ≡ put_record w.old i d) }
{
    set_buffer(s, i, d.buffer);
    set_size(w, i, d.size);
    set_length(w, i, d.length);
    set_suc_eof(w, i, d.suc_eof);
    set_owner(w, i, d.owner);
    set_next(w, i, d.next);
}
