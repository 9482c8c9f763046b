// Why a line is no command, or a command cannot be carried out.
use std::fmt;
use std::num::TryFromIntError;

#[derive(Clone, Copy, Debug, PartialEq, Eq)]
pub enum Why {
    TooLong,
    Unknown,
    Missing,
    Surplus,
    NoNumber,
    OutOfRange,
    NoBytes,
    Odd,
    NoSuchWord,
    NoRing,
    OtherWay,
    PastEnd,
}

impl fmt::Display for Why {
    fn fmt<W: fmt::Write>(&self, f: &mut fmt::Formatter<W>) -> fmt::Result {
        f.write_str(match self {
            Why::TooLong => "the line is too long",
            Why::Unknown => "no such command",
            Why::Missing => "an argument is missing",
            Why::Surplus => "more words than the command takes",
            Why::NoNumber => "not a number",
            Why::OutOfRange => "the number is out of range",
            Why::NoBytes => "not pairs of hex digits",
            Why::Odd => "an odd number of hex digits",
            Why::NoSuchWord => "not a word that may stand there",
            Why::NoRing => "there is no ring",
            Why::OtherWay => "the ring is of the other direction",
            Why::PastEnd => "past the end of the buffer",
        })
    }
}

impl From<TryFromIntError> for Why {
    fn from(_error: TryFromIntError) -> Why {
        Why::OutOfRange
    }
}
