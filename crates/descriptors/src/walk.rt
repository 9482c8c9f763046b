// The CPU-owned run from the cursor: what it counts for, a walk over it that reads, and the records handed to the device.
ghost use Rattle.std.specs.Prelude.{◌≡◌, ◌-◌, ◌<◌, [], if◌then◌else◌, nat_le};
ghost use Rattle.descriptors.specs.Record.{limit, span_of, following};
ghost use Rattle.descriptors.specs.Cells.{record_at, put_next};
ghost use Rattle.descriptors.specs.Stores.{hand_cells, link_cells, hand_all, link_all};
ghost use Rattle.descriptors.specs.Walk.{run_bytes, walk_in};
ghost use Rattle.descriptors.specs.Moves.{moved_in, head_moved, room_in};

use crate::record::{LIMIT, Owner, TransferDirection};
use crate::ring::Head;
use crate::{cells, place};

// Where a walk stands: the place, the bytes still to go and the records used up.
#[derive(Clone, Copy)]
pub struct Moved {
    pub at: usize,
    pub offset: usize,
    pub rest: usize,
    pub back: usize,
}

// What record i counts for: its length on receive, its size on transmit.
pub fn span(w: &[u16], dir: TransferDirection, i: usize) -> usize
    ensures { (result ≡ span_of dir (record_at [] w.now i)) × (result < 65536) }
{
    match dir {
        TransferDirection::In => cells::length_of(w, i),
        TransferDirection::Out => cells::size_of(w, i),
    }
}

// What the CPU-owned records from record i on count for, round a ring of n.
#[tactic(auto, using(crate::specs::laws::Walks::run_steps))]
pub fn run_bytes(w: &[u16], dir: TransferDirection, n: usize, i: usize) -> usize
    ensures { result ≡ (if nat_le n limit then run_bytes dir (record_at [] w.now) n n i else 0) }
{
    if LIMIT < n {
        return 0;
    }
    let mut total: usize = 0;
    let mut at = i;
    for _passed in 0..n {
        if !cells::owner_of(w, at).is_cpu() {
            return total;
        }
        total += span(w, dir, at);
        at = place::after(n, at);
    }
    total
}

// Where k bytes lead from (i, o) on.
#[tactic(auto, using(crate::specs::laws::Walks::walk_steps))]
pub fn walk_over(w: &[u16], dir: TransferDirection, n: usize, i: usize, o: usize, k: usize) -> Moved
    ensures { result ≡ walk_in dir (record_at [] w.now) n (record { at = i; offset = o; rest = k; back = 0 }) }
{
    let mut moved = Moved {
        at: i,
        offset: o,
        rest: k,
        back: 0,
    };
    if LIMIT < n {
        return moved;
    }
    for _passed in 0..n {
        if !cells::owner_of(w, moved.at).is_cpu() {
            return moved;
        }
        let stands = span(w, dir, moved.at).saturating_sub(moved.offset);
        if moved.rest < stands {
            moved.offset += moved.rest;
            moved.rest = 0;
            return moved;
        }
        moved.at = place::after(n, moved.at);
        moved.offset = 0;
        moved.rest -= stands;
        moved.back += 1;
    }
    moved
}

// Record idx goes back to the device, in the Rust's order of stores.
#[tactic(auto, unfolding(crate::specs::Stores::hand_cells))]
fn give_back(w: &mut [u16], n: usize, idx: usize)
    ensures { w.new ≡ hand_cells TransferDirection.In n idx w.old }
{
    cells::set_owner(w, idx, Owner::Dma);
    cells::set_suc_eof(w, idx, false);
    cells::set_length(w, idx, 0);
    cells::set_next(w, idx, None);
    let previous = place::before(n, idx);
    cells::link_to(w, previous, idx);
}

// Record d, filled, goes to the device.
#[tactic(auto, unfolding(crate::specs::Stores::hand_cells))]
fn enqueue(w: &mut [u16], n: usize, d: usize)
    ensures { w.new ≡ hand_cells TransferDirection.Out n d w.old }
{
    let size = cells::size_of(w, d);
    cells::set_owner(w, d, Owner::Dma);
    cells::set_length(w, d, size as u16);
    cells::set_suc_eof(w, d, true);
    cells::set_next(w, d, None);
    let previous = place::before(n, d);
    cells::link_to(w, previous, d);
}

// Alike with link_one, but each calls two transitions of its own; a closure would hide which.
fn hand_over_one(w: &mut [u16], dir: TransferDirection, n: usize, i: usize)
    ensures { w.new ≡ hand_cells dir n i w.old }
{
    match dir {
        TransferDirection::In => give_back(w, n, i),
        TransferDirection::Out => enqueue(w, n, i),
    }
}

// The records from i on go to the device, g of them, round a ring of n.
#[tactic(auto, using(crate::specs::laws::Walks::turns_done, crate::specs::laws::Walks::turns_go), unfolding(crate::specs::Stores::hand_all))]
pub fn hand_over(w: &mut [u16], dir: TransferDirection, n: usize, i: usize, g: usize)
    ensures { w.new ≡ hand_all dir n g i w.old }
{
    if LIMIT < g {
        return;
    }
    let mut at = i;
    for _handed in 0..g {
        hand_over_one(w, dir, n, at);
        at = place::after(n, at);
    }
}

// The bytes of the CPU-owned run from the cursor.
pub fn available(w: &[u16], dir: TransferDirection, h: Head) -> usize
    ensures { result ≡ room_in dir w.now h }
{
    run_bytes(w, dir, h.count, h.descriptor_idx).saturating_sub(h.descriptor_offset)
}

// Moves the cursor over k bytes, or over all there are: the records used up go to the device, and the tally counts the bytes.
pub fn advance(w: &mut [u16], dir: TransferDirection, h: &mut Head, k: usize) -> Moved
    ensures w_after { w.new ≡ hand_all dir h.old.count (moved_in dir w.old h.old k).back h.old.descriptor_idx w.old }
    ensures h_after { h.new ≡ head_moved h.old k (moved_in dir w.old h.old k) }
    ensures value { result ≡ moved_in dir w.old h.old k }
{
    let n = h.count;
    let i = h.descriptor_idx;
    let moved = walk_over(w, dir, n, i, h.descriptor_offset, k);
    hand_over(w, dir, n, i, moved.back);
    let bytes = k - moved.rest;
    h.descriptor_idx = moved.at;
    h.descriptor_offset = moved.offset;
    h.tally = h.tally.wrapping_add((bytes % 4294967296) as u32);
    moved
}

// Record i leads to the next one, the last to none.
fn set_following(w: &mut [u16], n: usize, i: usize)
    requires { i < n }
    ensures { w.new ≡ put_next w.old i (following n i) }
{
    if i + 1 == n {
        cells::set_next(w, i, None);
    } else {
        cells::link_to(w, i, i + 1);
    }
}

#[tactic(auto, unfolding(crate::specs::Stores::link_cells))]
fn link_in(w: &mut [u16], n: usize, i: usize)
    requires { i < n }
    ensures { w.new ≡ link_cells TransferDirection.In n i w.old }
{
    set_following(w, n, i);
    cells::set_owner(w, i, Owner::Dma);
    cells::set_suc_eof(w, i, false);
    cells::set_length(w, i, 0);
}

#[tactic(auto, unfolding(crate::specs::Stores::link_cells))]
fn link_out(w: &mut [u16], n: usize, i: usize)
    requires { i < n }
    ensures { w.new ≡ link_cells TransferDirection.Out n i w.old }
{
    set_following(w, n, i);
    cells::set_owner(w, i, Owner::Dma);
}

fn link_one(w: &mut [u16], dir: TransferDirection, n: usize, i: usize)
    requires { i < n }
    ensures { w.new ≡ link_cells dir n i w.old }
{
    match dir {
        TransferDirection::In => link_in(w, n, i),
        TransferDirection::Out => link_out(w, n, i),
    }
}

// Links up all the records, but not in a circle.
#[tactic(auto, using(crate::specs::laws::Updates::up_none, crate::specs::laws::Updates::up_more), unfolding(crate::specs::Stores::link_all))]
pub fn link_all(w: &mut [u16], dir: TransferDirection, n: usize)
    ensures { w.new ≡ link_all dir n w.old }
{
    if LIMIT < n {
        return;
    }
    for i in 0..n {
        link_one(w, dir, n, i);
    }
}
