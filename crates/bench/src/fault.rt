// Why a line is not answered as it asks: it is wrong, or the call is refused.
use crate::why::Why;
use descriptors::refusal::DmaBufError;
use std::fmt;

#[derive(Clone, Copy, Debug, PartialEq, Eq)]
pub enum Fault {
    Wrong(Why),
    Refused(DmaBufError),
}

impl From<Why> for Fault {
    fn from(why: Why) -> Fault {
        Fault::Wrong(why)
    }
}

impl From<DmaBufError> for Fault {
    fn from(refusal: DmaBufError) -> Fault {
        Fault::Refused(refusal)
    }
}

impl fmt::Display for Fault {
    fn fmt<W: fmt::Write>(&self, f: &mut fmt::Formatter<W>) -> fmt::Result {
        match *self {
            Fault::Wrong(why) => write!(f, "error: {why}"),
            Fault::Refused(refusal) => {
                let number = u8::from(refusal);
                write!(f, "refused {number}")
            }
        }
    }
}
