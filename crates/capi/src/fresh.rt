// Both `new`s over lent words.
ghost use Rattle.std.specs.Prelude.{◌≡◌};
ghost use Rattle.descriptors.specs.Cells.{records_of};
ghost use Rattle.descriptors.specs.Ring.{new_of};
ghost use Rattle.capi.specs.New.{new_number, new_head, new_starts, new_cells};

use crate::{answer, words};
use descriptors::record::TransferDirection;
use descriptors::refusal::DmaBufError;
use descriptors::ring;

// The head is written where the ring is made.
#[tactic(auto, unfolding(crate::specs::New::new_starts, crate::specs::New::new_cells, crate::specs::New::new_head, crate::specs::New::new_number, crate::specs::Words::head_made))]
pub(crate) fn new(
    dir: TransferDirection,
    head: &mut [u64],
    starts: &mut [u32],
    cells: &mut [u16],
    count: usize,
    len: usize,
) -> u32
    ensures starts_after { starts.new ≡ new_starts head.old starts.old cells.old (new_of dir (records_of starts.old cells.old) count len) }
    ensures cells_after { cells.new ≡ new_cells head.old starts.old cells.old (new_of dir (records_of starts.old cells.old) count len) }
    ensures head_after { head.new ≡ new_head head.old (new_of dir (records_of starts.old cells.old) count len) }
    ensures value { result ≡ new_number head.old (new_of dir (records_of starts.old cells.old) count len) }
{
    if head.len() != words::WORDS {
        return answer::number(DmaBufError::BadState);
    }
    let made = ring::new_in(dir, starts, cells, count, len);
    match made.answer {
        Ok(()) => {
            words::put(head, made.ring);
            0
        }
        Err(e) => answer::number(e),
    }
}
