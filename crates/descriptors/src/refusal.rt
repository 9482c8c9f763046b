// The refusals of document 01, with the Rust's names where it has them.
ghost use Rattle.std.specs.Prelude.{◌≡◌};
ghost use Rattle.descriptors.specs.Refusal.{number_of};

#[derive(Clone, Copy, Debug, PartialEq, Eq)]
pub enum DmaAlignmentError {
    Address,
    Size,
}

#[derive(Clone, Copy, Debug, PartialEq, Eq)]
pub enum DmaBufError {
    InsufficientDescriptors,
    InvalidChunkSize,
    UnevenSplit,
    TooManyDescriptors,
    BadState,
    BadStep,
    Stopped,
    TooMuch,
    UnsupportedMemoryRegion,
    InvalidAlignment(DmaAlignmentError),
    BadAlignment,
}

// The number that document 01 gives a refusal.
impl From<DmaBufError> for u8 {
    ghost from_gives = { λ refusal k. k ≡ number_of refusal };

    fn from(refusal: DmaBufError) -> u8 {
        match refusal {
            DmaBufError::InsufficientDescriptors => 1,
            DmaBufError::InvalidChunkSize => 2,
            DmaBufError::UnevenSplit => 3,
            DmaBufError::TooManyDescriptors => 4,
            DmaBufError::BadState => 5,
            DmaBufError::BadStep => 6,
            DmaBufError::Stopped => 7,
            DmaBufError::TooMuch => 8,
            DmaBufError::UnsupportedMemoryRegion => 9,
            DmaBufError::InvalidAlignment(which) => match which {
                DmaAlignmentError::Address => 10,
                DmaAlignmentError::Size => 11,
            },
            DmaBufError::BadAlignment => 12,
        }
    }
}
