// Where a piece lies, and what a list of them answers.
ghost use Rattle.std.specs.Prelude.{◌≡◌};
ghost use Rattle.psram.specs.Piece.{start_of, size_of};

use descriptors::cells::CELLS;
use descriptors::record::LIMIT;

// A part of the bounce store or of the caller's range.
#[derive(Clone, Copy, Debug, PartialEq, Eq)]
pub enum Held {
    InStore { start: usize, size: usize },
    InRange { start: usize, size: usize },
}

impl Held {
    pub fn start(self) -> usize
        ensures { result ≡ start_of self }
    {
        match self {
            Held::InStore { start, size: _ } => start,
            Held::InRange { start, size: _ } => start,
        }
    }

    pub fn size(self) -> usize
        ensures { result ≡ size_of self }
    {
        match self {
            Held::InStore { start: _, size } => size,
            Held::InRange { start: _, size } => size,
        }
    }
}

// What a list of pieces answers: the bytes that its records cover, and how many records it uses.
#[derive(Clone, Copy, Debug, PartialEq, Eq)]
pub struct Listed {
    pub covered: usize,
    pub used: usize,
}

// Records by value, of which the first `count` are lent.
#[derive(Clone, Copy, Debug)]
pub struct DescriptorSet {
    pub starts: [u32; LIMIT],
    pub cells: [u16; CELLS],
    pub count: usize,
}
