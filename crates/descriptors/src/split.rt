// A buffer split over n records.
ghost use Rattle.std.specs.Prelude.{◌≡◌};
ghost use Rattle.descriptors.specs.Split.{split_of};

use crate::record::{LIMIT, MOST};
use crate::refusal::DmaBufError;

// The fewest records that a ring has.
pub const LEAST: usize = 4;

// The bytes of each record, and those that the last one has beside them.
#[derive(Clone, Copy, Debug, PartialEq, Eq)]
pub struct Split {
    pub chunk: usize,
    pub rest: usize,
}

// How len bytes are split over n records: chunk bytes each, and the last one has the rest too.
#[tactic(auto, unfolding(crate::specs::Split::split_of))]
pub fn split_of(n: usize, len: usize) -> Result<Split, DmaBufError>
    ensures { result ≡ split_of n len }
{
    if n < LEAST {
        return Err(DmaBufError::InsufficientDescriptors);
    }
    if LIMIT < n {
        return Err(DmaBufError::TooManyDescriptors);
    }
    let chunk = len / n;
    let rest = len % n;
    if MOST < chunk {
        return Err(DmaBufError::InsufficientDescriptors);
    }
    if chunk == 0 {
        return Err(DmaBufError::InvalidChunkSize);
    }
    if chunk <= rest {
        return Err(DmaBufError::UnevenSplit);
    }
    if MOST < chunk + rest {
        return Err(DmaBufError::InsufficientDescriptors);
    }
    Ok(Split { chunk, rest })
}
