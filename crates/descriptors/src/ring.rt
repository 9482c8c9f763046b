// A ring without its records, and what is sound. Starts, cells and head are lent apart, here and in place: C lends them so, and a clause
// over a struct that holds them would name each twice (`self.exit.cells.now`).
ghost use Rattle.std.specs.Prelude.{◌≡◌, ℕ, Bool, ◌+◌, ◌-◌, ◌*◌, ◌/◌, ◌%◌, ◌<◌, ◌≤◌, true, ◌&&◌, ◌||◌, [], length, if◌then◌else◌, ◌==◌, nat_eq, nat_le, nat_lt, slice_index};
ghost use Rattle.descriptors.specs.Record.{limit, up_to};
ghost use Rattle.descriptors.specs.Cells.{cells, record_at, all_below, are_records};
ghost use Rattle.descriptors.specs.Stores.{lay_start, lay_size, lay_cells};
ghost use Rattle.descriptors.specs.Ring.{ring_of, offset_ok, sound, split_sound, judged, NewIn, between_of};

use crate::cells::CELLS;
use crate::record::{LIMIT, TransferDirection};
use crate::refusal::DmaBufError;
use crate::split::Split;
use crate::{cells, split};

#[derive(Clone, Copy, Debug, PartialEq, Eq, Default)]
pub struct Head {
    pub count: usize,
    pub descriptor_idx: usize,
    pub descriptor_offset: usize,
    pub tally: u32,
    pub pre_filled: usize,
}

// What a call by value answers, and the ring that it leaves.
#[derive(Clone, Copy, Debug, PartialEq, Eq)]
pub struct Kept<R, A> {
    pub ring: R,
    pub answer: Result<A, DmaBufError>,
}

// ---- the scans: each asks by itself that the words are whole, since they stay slices, as C lends them

// The scan. It has one flag, and no way out before the end: so it is done on many records at a time.
#[tactic(auto, using(crate::specs::laws::Tests::flags))]
fn all_below<F: Fn(usize) -> bool>(n: usize, test: F) -> bool
    requires { (i : ℕ) → i < n → F.pre test i }
    ensures { (p : ℕ → Bool) → ((i : ℕ) (b : Bool) → i < n → F.post test i b → b ≡ p i) → result ≡ all_below p n }
{
    let mut ok = true;
    for i in 0..n {
        if !test(i) {
            ok = false;
        }
    }
    ok
}

fn marks_ok(w: &[u16]) -> bool
    requires { length w.now ≡ cells }
    ensures { result ≡ all_below (λ j. nat_le (slice_index w.now (limit * 3 + j)) 1) (2 * limit) }
{
    all_below(2 * LIMIT, |j| w[3 * LIMIT + j] <= 1)
}

// A loop of its own: tried as a scan, which has to multiply, and the judge of 64 records took an eighth longer.
fn starts_ok(s: &[u32], n: usize, chunk: usize) -> bool
    requires { (length s.now ≡ limit) × (n ≤ limit) × (chunk ≤ 4095) }
    ensures { result ≡ all_below (λ i. nat_eq (slice_index s.now i) (i * chunk)) n }
{
    let step = chunk as u32;
    let mut ok = true;
    let mut start: u32 = 0;
    for i in 0..n {
        if s[i] != start {
            ok = false;
        }
        start = s[i].wrapping_add(step);
    }
    ok
}

// Where the scan of the sizes stops: behind the last record where its size is like the others'.
fn scan_end(n: usize, chunk: usize, last: usize) -> usize
    requires { 0 < n }
    ensures { result ≡ (if nat_eq last chunk then n else n - 1) }
{
    if last == chunk { n } else { n - 1 }
}

fn sizes_ok(w: &[u16], n: usize, chunk: usize, last: usize) -> bool
    requires { (length w.now ≡ cells) × (0 < n) × (n ≤ limit) × (chunk ≤ 4095) × (last ≤ 4095) }
    ensures { result ≡ (all_below (λ i. nat_eq (slice_index w.now i) chunk) (n - 1) && slice_index w.now (n - 1) == last) }
{
    let size = chunk as u16;
    all_below(scan_end(n, chunk, last), |i| w[i] == size) && w[n - 1] == last as u16
}

fn lengths_ok(w: &[u16], n: usize) -> bool
    requires { (length w.now ≡ cells) × (n ≤ limit) }
    ensures { result ≡ all_below (λ i. nat_le (slice_index w.now (limit + i)) (slice_index w.now i)) n }
{
    all_below(n, |i| w[LIMIT + i] <= w[i])
}

fn nexts_ok(w: &[u16], n: usize) -> bool
    requires { (length w.now ≡ cells) × (n ≤ limit) }
    ensures { result ≡ all_below (λ i. nat_le (slice_index w.now (limit * 2 + i)) n) n }
{
    all_below(n, |i| w[2 * LIMIT + i] <= n as u16)
}

// ---- sound

#[tactic(auto, unfolding(crate::specs::Cells::are_records, crate::specs::Cells::are_cells))]
pub fn are_records<'a>(s: &'a [u32], w: &'a [u16]) -> bool
    ensures { result ≡ are_records s.now w.now }
{
    s.len() == LIMIT && w.len() == CELLS && marks_ok(w)
}

fn offset_in(cpu: bool, length: usize, offset: usize) -> bool
    ensures { result ≡ (offset == 0 || (cpu && nat_lt offset length)) }
{
    offset == 0 || (cpu && offset < length)
}

fn offset_out(cpu: bool, size: usize, offset: usize) -> bool
    ensures { result ≡ (nat_lt offset size && (offset == 0 || cpu)) }
{
    offset < size && (offset == 0 || cpu)
}

fn offset_ok(w: &[u16], dir: TransferDirection, i: usize, offset: usize) -> bool
    ensures { result ≡ offset_ok dir (record_at [] w.now i) offset }
{
    let cpu = cells::owner_of(w, i).is_cpu();
    match dir {
        TransferDirection::In => offset_in(cpu, cells::length_of(w, i), offset),
        TransferDirection::Out => offset_out(cpu, cells::size_of(w, i), offset),
    }
}

// What `prepare` and the calls before it ask for: the split and the prefilled count.
pub fn judge_split<'a>(s: &'a [u32], w: &'a [u16], h: Head, len: usize) -> Result<(), DmaBufError>
    ensures { result ≡ judged (split_sound (ring_of s.now w.now h) len) }
{
    let n = h.count;
    let Ok(Split { chunk, rest }) = split::split_of(n, len) else {
        return Err(DmaBufError::BadState);
    };
    if are_records(s, w)
        && starts_ok(s, n, chunk)
        && sizes_ok(w, n, chunk, chunk + rest)
        && h.pre_filled <= len
    {
        return Ok(());
    }
    Err(DmaBufError::BadState)
}

// What every other call asks for first.
pub fn judge<'a>(
    dir: TransferDirection,
    s: &'a [u32],
    w: &'a [u16],
    h: Head,
    len: usize,
) -> Result<(), DmaBufError>
    ensures { result ≡ judged (sound dir (ring_of s.now w.now h) len) }
{
    judge_split(s, w, h, len)?;
    let n = h.count;
    let i = h.descriptor_idx;
    if lengths_ok(w, n) && nexts_ok(w, n) && i < n && offset_ok(w, dir, i, h.descriptor_offset) {
        return Ok(());
    }
    Err(DmaBufError::BadState)
}

// ---- new

fn fresh(n: usize) -> Head
    ensures { result ≡ record { count = n; descriptor_idx = 0; descriptor_offset = 0; tally = 0; pre_filled = 0 } }
{
    Head {
        count: n,
        ..Head::default()
    }
}

#[tactic(auto, using(crate::specs::laws::Updates::up_none, crate::specs::laws::Updates::up_more), unfolding(crate::specs::Stores::lay_start, crate::specs::Split::start_of))]
fn lay_starts(s: &mut [u32], n: usize, len: usize, chunk: usize)
    requires { (n ≤ limit) × (chunk ≤ 4095) × (chunk ≡ len / n) }
    ensures { s.new ≡ up_to (lay_start n len) n s.old }
{
    for i in 0..n {
        cells::set_buffer(s, i, (i * chunk) as u32);
    }
}

fn lay_size(w: &mut [u16], dir: TransferDirection, i: usize, size: u16, chunk: u16)
    ensures { w.new ≡ lay_size dir i size chunk w.old }
{
    cells::set_size(w, i, size);
    if !dir.is_in() {
        cells::set_length(w, i, chunk);
    }
}

fn size_at(n: usize, i: usize, chunk: usize, rest: usize) -> u16
    requires { (i < n) × (chunk + rest ≤ 4095) }
    ensures { result ≡ (if nat_eq (i + 1) n then chunk + rest else chunk) }
{
    if i + 1 == n {
        (chunk + rest) as u16
    } else {
        chunk as u16
    }
}

#[tactic(auto, using(crate::specs::laws::Updates::up_none, crate::specs::laws::Updates::up_more), unfolding(crate::specs::Stores::lay_cells, crate::specs::Split::size_of))]
fn lay_sizes(w: &mut [u16], dir: TransferDirection, n: usize, len: usize, chunk: usize, rest: usize)
    requires { (n ≤ limit) × (chunk + rest ≤ 4095) × (chunk ≡ len / n) × (rest ≡ len % n) }
    ensures { w.new ≡ up_to (lay_cells dir n len) n w.old }
{
    for i in 0..n {
        let size = size_at(n, i, chunk, rest);
        lay_size(w, dir, i, size, chunk as u16);
    }
}

// Both `new`s: the buffer's len bytes split over the first n of the lent records. The head is answered, not lent: so a refusal changes
// nothing. It is one of a ring that begins, after a refusal too.
pub fn new_in(
    dir: TransferDirection,
    s: &mut [u32],
    w: &mut [u16],
    n: usize,
    len: usize,
) -> Kept<Head, ()>
    ensures { NewIn dir s.old w.old n len s.new w.new result.ring result.answer }
{
    let ring = fresh(n);
    let parts = split::split_of(n, len);
    let Ok(Split { chunk, rest }) = parts else {
        return Kept {
            ring,
            answer: parts.and(Ok(())),
        };
    };
    if !are_records(s, w) {
        return Kept {
            ring,
            answer: Err(DmaBufError::BadState),
        };
    }
    lay_starts(s, n, len, chunk);
    lay_sizes(w, dir, n, len, chunk, rest);
    Kept {
        ring,
        answer: Ok(()),
    }
}

// The bytes between an earlier reading of a tally and a later one.
pub fn between(earlier: u32, later: u32) -> u32
    ensures { result ≡ between_of earlier later }
{
    later.wrapping_sub(earlier)
}
