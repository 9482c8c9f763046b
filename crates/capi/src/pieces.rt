// Head and tail of a range, and the pieces between. chip: 0 ordinary, 1 S2. `len` is the range's length.
ghost use Rattle.std.specs.Prelude.{◌≡◌, cond};
ghost use Rattle.descriptors.specs.Cells.{records_of, starts_now, cells_now};
ghost use Rattle.psram.specs.Cut.{cut_of};
ghost use Rattle.psram.specs.Piece.{numbered_of};
ghost use Rattle.psram.specs.List.{list_of};
ghost use Rattle.capi.specs.Answer.{said_number, said_in};
ghost use Rattle.capi.specs.Pieces.{chip_of, piece_ready, ready_said, cut_said, listed_said, held_said};

use crate::answer;
use descriptors::refusal::DmaBufError;
use psram::chip::Chip;
use psram::{cut, list, piece};

// Numbers name chips in C: the C interface.
fn chip_of(chip: u32) -> Chip
    ensures { result ≡ chip_of chip }
{
    match chip {
        0 => Chip::Ordinary,
        _ => Chip::S2,
    }
}

#[tactic(auto, unfolding(crate::specs::Pieces::piece_ready))]
fn piece_ready(answer: &[u64], chip: u32) -> bool
    ensures { result ≡ piece_ready answer.now chip }
{
    chip <= 1 && answer::has_room(answer)
}

// answer: head, middle, tail.
#[unsafe(no_mangle)]
pub extern "C" fn dma_head_middle_tail(address: u32, len: u32, chip: u32, answer: &mut [u64]) -> u32
    ensures value { result ≡ said_number (ready_said (piece_ready answer.old chip) (cut_said (cut_of (chip_of chip) address len))) }
    ensures answer_after { answer.new ≡ said_in answer.old (ready_said (piece_ready answer.old chip) (cut_said (cut_of (chip_of chip) address len))) }
{
    if !piece_ready(answer, chip) {
        return answer::number(DmaBufError::BadState);
    }
    let outcome = cut::cut(address, len, chip_of(chip));
    answer::put(answer, outcome)
}

// answer: the bytes covered and the records used. count: the records that may be used.
#[unsafe(no_mangle)]
pub extern "C" fn dma_build_descriptor_list_for_psram(
    starts: &mut [u32],
    cells: &mut [u16],
    count: usize,
    address: u32,
    len: u32,
    chip: u32,
    store_len: usize,
    answer: &mut [u64],
) -> u32
    ensures starts_after { starts.new ≡ cond (piece_ready answer.old chip) (starts_now starts.old cells.old (list_of (records_of starts.old cells.old) count address len (chip_of chip) store_len).descriptors) starts.old }
    ensures cells_after { cells.new ≡ cond (piece_ready answer.old chip) (cells_now starts.old cells.old (list_of (records_of starts.old cells.old) count address len (chip_of chip) store_len).descriptors) cells.old }
    ensures value { result ≡ said_number (ready_said (piece_ready answer.old chip) (listed_said (list_of (records_of starts.old cells.old) count address len (chip_of chip) store_len).answer)) }
    ensures answer_after { answer.new ≡ said_in answer.old (ready_said (piece_ready answer.old chip) (listed_said (list_of (records_of starts.old cells.old) count address len (chip_of chip) store_len).answer)) }
{
    if !piece_ready(answer, chip) {
        return answer::number(DmaBufError::BadState);
    }
    let outcome = list::build_descriptor_list_for_psram(
        starts,
        cells,
        count,
        address,
        len,
        chip_of(chip),
        store_len,
    );
    answer::put(answer, outcome)
}

// answer: 0 in the bounce store or 1 in the range, start, size.
#[unsafe(no_mangle)]
pub extern "C" fn dma_piece(
    count: usize,
    address: u32,
    len: u32,
    chip: u32,
    store_len: usize,
    number: usize,
    answer: &mut [u64],
) -> u32
    ensures value { result ≡ said_number (ready_said (piece_ready answer.old chip) (held_said (numbered_of count address len (chip_of chip) store_len number))) }
    ensures answer_after { answer.new ≡ said_in answer.old (ready_said (piece_ready answer.old chip) (held_said (numbered_of count address len (chip_of chip) store_len number))) }
{
    if !piece_ready(answer, chip) {
        return answer::number(DmaBufError::BadState);
    }
    let bytes = len as usize;
    let outcome = piece::numbered(count, address, bytes, chip_of(chip), store_len, number);
    answer::put(answer, outcome)
}
