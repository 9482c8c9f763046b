// The records that the pieces of a range are given to.
ghost use Rattle.std.specs.Prelude.{◌≡◌, ◌≤◌, length};
ghost use Rattle.descriptors.specs.Record.{limit, up_to};
ghost use Rattle.descriptors.specs.Cells.{records_of};
ghost use Rattle.psram.specs.Cut.{piece};
ghost use Rattle.psram.specs.Piece.{Small, piece_of, size_in};
ghost use Rattle.psram.specs.List.{link_cells, list_start, list_cells, covered_of, list_of, Leaves, built_of};

use crate::chip::Chip;
use crate::cut::plan;
use crate::held::{DescriptorSet, Held, Listed};
use crate::piece::{piece_at, pieces, ready};
use crate::plan::Plan;
use descriptors::record::LIMIT;
use descriptors::refusal::DmaBufError;
use descriptors::ring::Kept;
use descriptors::{cells, ring};

// What is listed behind the last piece: nothing.
const NOWHERE: Held = Held::InStore { start: 0, size: 0 };

// The record before i leads to it: there is none before the first.
fn link_before(w: &mut [u16], i: usize)
    ensures { w.new ≡ link_cells i w.old }
{
    if i != 0 {
        cells::link_to(w, i - 1, i);
    }
}

// Record i gets piece i, in the Rust's order of stores; answers the piece's size.
fn list_one(s: &mut [u32], w: &mut [u16], p: Plan, i: usize) -> usize
    requires { Small p }
    ensures { (result ≡ size_in (piece_of p i)) × (result ≤ piece) × (s.new ≡ list_start p i s.old) × (w.new ≡ list_cells p i w.old) }
{
    let held = piece_at(p, i).unwrap_or(NOWHERE);
    let size = held.size();
    link_before(w, i);
    cells::set_size(w, i, size as u16);
    cells::set_buffer(s, i, held.start() as u32);
    size
}

// The first `used` records get their pieces; answers the bytes that they cover.
fn list_pieces(s: &mut [u32], w: &mut [u16], p: Plan, used: usize) -> usize
    requires { Small p × (used ≤ limit) × (used ≤ length s.old) }
    ensures { (result ≡ covered_of p used) × (s.new ≡ up_to (list_start p) used s.old) × (w.new ≡ up_to (list_cells p) used w.old) }
{
    let mut covered: usize = 0;
    // said again for the compiler: every one of them is a record
    for i in 0..used.min(LIMIT).min(s.len()) {
        covered += list_one(s, w, p, i);
    }
    covered
}

// Over the starts and the cells of lent records, of which the first n are used.
pub fn build_descriptor_list_for_psram(
    s: &mut [u32],
    w: &mut [u16],
    n: usize,
    address: u32,
    length: u32,
    chip: Chip,
    store: usize,
) -> Result<Listed, DmaBufError>
    ensures { Leaves s.old w.old s.new w.new result (list_of (records_of s.old w.old) n address length chip store) }
{
    let held = ring::are_records(s, w);
    ready(held, n, address, length as usize, chip, store)?;
    let p = plan(address, length as usize, chip);
    let used = n.min(pieces(p));
    let covered = list_pieces(s, w, p, used);
    Ok(Listed { covered, used })
}

// The same over records by value.
#[tactic(auto, unfolding(crate::specs::List::built_of))]
pub fn build_descriptor_list(
    d: DescriptorSet,
    address: u32,
    length: u32,
    chip: Chip,
    store: usize,
) -> Kept<DescriptorSet, Listed>
    ensures { result ≡ built_of d address length chip store }
{
    // an array is lent from a variable: the borrow checker does not cover fields of one struct lent at once
    let mut starts = d.starts;
    let mut cells = d.cells;
    let n = d.count;
    let answer = build_descriptor_list_for_psram(
        &mut starts,
        &mut cells,
        n,
        address,
        length,
        chip,
        store,
    );
    Kept {
        ring: DescriptorSet {
            starts,
            cells,
            count: n,
        },
        answer,
    }
}
