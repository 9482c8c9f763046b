// The numbered piece of a range, and the part of the store or of the range that holds it.
ghost use Rattle.std.specs.Prelude.{◌≡◌, ◌<◌, ◌≤◌, length};
ghost use Rattle.descriptors.specs.Record.{top};
ghost use Rattle.psram.specs.Piece.{some, directs, bytes_of, pieces_of, piece_of, direct_of, ready_of, numbered_of, shown_of, place_of, piece_refusal_of};

use crate::chip::{Chip, PIECE};
use crate::cut::{is_past, plan};
use crate::held::Held;
use crate::plan::Plan;
use descriptors::record::LIMIT;
use descriptors::refusal::DmaBufError;

// An outer part is one piece, or none where it is empty.
fn some(size: usize) -> usize
    ensures { result ≡ some size }
{
    usize::from(size != 0)
}

// That a plan is no longer than memory stands in three contracts: in the type, every definition that makes a plan would have to show it.
fn directs(middle: usize) -> usize
    requires { middle ≤ top }
    ensures { result ≡ directs middle }
{
    (middle + (PIECE - 1)) / PIECE
}

#[tactic(auto, unfolding(crate::specs::Piece::pieces_of))]
pub(crate) fn pieces(p: Plan) -> usize
    requires { bytes_of p ≤ top }
    ensures { result ≡ pieces_of p }
{
    some(p.head) + directs(p.middle) + some(p.tail)
}

// Direct piece j.
fn direct(p: Plan, j: usize) -> Held
    requires { (bytes_of p ≤ top) × (j < directs p.middle) }
    ensures { result ≡ direct_of p j }
{
    let from = PIECE * j;
    Held::InRange {
        start: p.head + from,
        size: PIECE.min(p.middle - from),
    }
}

#[tactic(auto, unfolding(crate::specs::Piece::piece_of))]
pub(crate) fn piece_at(p: Plan, i: usize) -> Result<Held, DmaBufError>
    requires { bytes_of p ≤ top }
    ensures { result ≡ piece_of p i }
{
    let ahead = some(p.head);
    if i < ahead {
        return Ok(Held::InStore {
            start: 0,
            size: p.head,
        });
    }
    let j = i - ahead;
    let between = directs(p.middle);
    if j < between {
        return Ok(direct(p, j));
    }
    if j - between < some(p.tail) {
        return Ok(Held::InStore {
            start: p.bounce,
            size: p.tail,
        });
    }
    Err(DmaBufError::TooMuch)
}

// What a list of pieces is refused for; `held` says whether the lent words hold records. The parameters that follow are those of the
// public calls, which README names.
#[tactic(auto, unfolding(crate::specs::Piece::ready_of))]
pub(crate) fn ready(
    held: bool,
    n: usize,
    address: u32,
    length: usize,
    chip: Chip,
    store: usize,
) -> Result<(), DmaBufError>
    ensures { result ≡ ready_of held n address length chip store }
{
    if LIMIT < n {
        return Err(DmaBufError::TooManyDescriptors);
    }
    if !held {
        return Err(DmaBufError::BadState);
    }
    if store < 2 * chip.bounce() {
        return Err(DmaBufError::BadState);
    }
    if is_past(address, length) {
        return Err(DmaBufError::UnsupportedMemoryRegion);
    }
    Ok(())
}

// Where piece i of a range lies, as numbers.
#[tactic(auto, unfolding(crate::specs::Piece::numbered_of))]
pub fn numbered(
    n: usize,
    address: u32,
    length: usize,
    chip: Chip,
    store: usize,
    i: usize,
) -> Result<Held, DmaBufError>
    ensures { result ≡ numbered_of n address length chip store i }
{
    ready(true, n, address, length, chip, store)?;
    if n <= i {
        return Err(DmaBufError::TooMuch);
    }
    piece_at(plan(address, length, chip), i)
}

// Piece i of a range: empty where there is none, and then `piece_refusal` says why.
pub fn piece<'a>(
    store: &'a [u8],
    range: &'a [u8],
    n: usize,
    address: u32,
    chip: Chip,
    i: usize,
) -> &'a [u8]
    ensures result_value { result.now ≡ shown_of store.now range.now (numbered_of n address (length range.now) chip (length store.now) i) }
    ensures ref_ptr_value { result.ref_ptr ≡ place_of store.entry range.entry (numbered_of n address (length range.now) chip (length store.now) i) }
{
    match numbered(n, address, range.len(), chip, store.len(), i) {
        Ok(Held::InStore { start, size }) => {
            let end = start + size;
            &store[start..end]
        }
        Ok(Held::InRange { start, size }) => {
            let end = start + size;
            &range[start..end]
        }
        Err(_) => &store[0..0],
    }
}

pub fn piece_refusal<'a>(
    store: &'a [u8],
    range: &'a [u8],
    n: usize,
    address: u32,
    chip: Chip,
    i: usize,
) -> Result<(), DmaBufError>
    ensures { result ≡ piece_refusal_of (numbered_of n address (length range.now) chip (length store.now) i) }
{
    numbered(n, address, range.len(), chip, store.len(), i)?;
    Ok(())
}
