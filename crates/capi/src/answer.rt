// What a call says: three words, which go into the answer, or a refusal, whose number it returns.
ghost use Rattle.std.specs.Prelude.{◌≡◌};
ghost use Rattle.descriptors.specs.Refusal.{number_of};
ghost use Rattle.capi.specs.Answer.{has_room, answered, said_by, said_number, said_in, done_number, words_of_count, words_of_took, words_of_cut, words_of_listed, words_of_held, words_alone};

use descriptors::refusal::DmaBufError;
use psram::held::{Held, Listed};
use psram::plan::Cut;
use rx_stream::Took;

pub(crate) const WORDS: usize = 3;

#[derive(Clone, Copy, Debug, PartialEq, Eq, Default)]
pub struct Said {
    pub first: usize,
    pub second: usize,
    pub third: usize,
}

// What says three words.
pub trait Says {
    ghost use Rattle.capi.specs.declared.answer.Said.{Said};

    ghost said: { Self → Said };

    fn said(self) -> Said
        ensures { result ≡ said self };
}

impl Says for Said {
    ghost said = { words_alone };

    fn said(self) -> Said {
        self
    }
}

impl Says for usize {
    ghost said = { words_of_count };

    fn said(self) -> Said {
        Said {
            first: self,
            ..Said::default()
        }
    }
}

impl Says for Took {
    ghost said = { words_of_took };

    fn said(self) -> Said {
        Said {
            first: self.taken,
            second: self.back,
            third: 0,
        }
    }
}

impl Says for Cut {
    ghost said = { words_of_cut };

    fn said(self) -> Said {
        Said {
            first: self.head,
            second: self.middle,
            third: self.tail,
        }
    }
}

impl Says for Listed {
    ghost said = { words_of_listed };

    fn said(self) -> Said {
        Said {
            first: self.covered,
            second: self.used,
            third: 0,
        }
    }
}

// 0 in the bounce store or 1 in the range, start, size.
impl Says for Held {
    ghost said = { words_of_held };

    fn said(self) -> Said {
        match self {
            Held::InStore { start, size } => Said {
                first: 0,
                second: start,
                third: size,
            },
            Held::InRange { start, size } => Said {
                first: 1,
                second: start,
                third: size,
            },
        }
    }
}

pub(crate) fn has_room(answer: &[u64]) -> bool
    ensures { result ≡ has_room answer.now }
{
    WORDS <= answer.len()
}

#[tactic(auto, unfolding(crate::specs::Answer::answered))]
fn store(answer: &mut [u64], said: Said)
    ensures { answer.new ≡ answered answer.old said.first said.second said.third }
{
    if answer.len() < WORDS {
        return;
    }
    answer[0] = said.first as u64;
    answer[1] = said.second as u64;
    answer[2] = said.third as u64;
}

pub(crate) fn number(refusal: DmaBufError) -> u32
    ensures { result ≡ number_of refusal }
{
    u32::from(u8::from(refusal))
}

// Every call that answers ends with this.
pub(crate) fn put<A: Says>(answer: &mut [u64], outcome: Result<A, DmaBufError>) -> u32
    ensures value { result ≡ said_number (said_by A.said outcome) }
    ensures answer_after { answer.new ≡ said_in answer.old (said_by A.said outcome) }
{
    match outcome {
        Ok(x) => {
            store(answer, x.said());
            0
        }
        Err(e) => number(e),
    }
}

pub(crate) fn done(outcome: Result<(), DmaBufError>) -> u32
    ensures { result ≡ done_number outcome }
{
    match outcome {
        Ok(()) => 0,
        Err(e) => number(e),
    }
}
