// What the chips differ in, and what they share.
ghost use Rattle.std.specs.Prelude.{◌≡◌};
ghost use Rattle.psram.specs.Cut.{least_of, bounce_of};

// The bytes of a line of external memory.
pub const LINE: usize = 16;

// The most bytes of a piece.
pub const PIECE: usize = 4080;

#[derive(Clone, Copy, Debug, PartialEq, Eq)]
pub enum Chip {
    Ordinary,
    S2,
}

impl Chip {
    // The fewest bytes that the device moves at either end of a range: MIN_LAST_DMA_LEN in the Rust.
    pub fn least(self) -> usize
        ensures { result ≡ least_of self }
    {
        match self {
            Chip::Ordinary => 1,
            Chip::S2 => 5,
        }
    }

    // The bytes of each half of the bounce store: BUF_LEN in the Rust.
    pub fn bounce(self) -> usize
        ensures { result ≡ bounce_of self }
    {
        match self {
            Chip::Ordinary => 16,
            Chip::S2 => 24,
        }
    }
}
