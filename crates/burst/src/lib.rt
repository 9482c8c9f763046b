// Whether a buffer may be handed to the device: the memory region that holds it, and its alignment there.
#![tactic(auto)]

ghost use Rattle.std.specs.Prelude.{◌≡◌, ◌<◌};
ghost use Rattle.burst.specs.Burst.{is_good, holds, contains, supported, alignment_at, aligned_of, compatible_of};

use descriptors::record::{TOP, TransferDirection};
use descriptors::refusal::{DmaAlignmentError, DmaBufError};

// The largest alignment.
pub const WIDEST: u32 = 64;

// A memory region, half-open: an end wants more than 32 bits.
#[derive(Clone, Copy, Debug, PartialEq, Eq)]
pub struct Region {
    pub start: u64,
    pub end: u64,
}

impl Region {
    // Whether the region holds the addresses from start up to end.
    fn holds(self, start: u64, end: u64) -> bool
        ensures { result ≡ holds self start end }
    {
        self.start <= start && end <= self.end
    }

    // Whether an address is one of the region's.
    fn contains(self, address: u64) -> bool
        ensures { result ≡ contains self address }
    {
        self.start <= address && address < self.end
    }
}

#[tactic(auto, unfolding(crate::specs::Burst::is_good))]
fn is_good(alignment: u32) -> bool
    ensures { result ≡ is_good alignment }
{
    alignment <= WIDEST && alignment.count_ones() == 1
}

#[tactic(auto, unfolding(crate::specs::Burst::supported))]
fn is_supported(start: u64, end: u64, internal: Region, external: Region) -> bool
    ensures { result ≡ supported start end internal external }
{
    end <= TOP as u64 && (internal.holds(start, end) || external.holds(start, end))
}

// The alignment that is asked at an address.
#[tactic(auto, unfolding(crate::specs::Burst::alignment_at))]
fn min_alignment(
    address: u64,
    external: Region,
    internal_alignment: u32,
    external_alignment: u32,
) -> u32
    ensures { result ≡ alignment_at address external internal_alignment external_alignment }
{
    if external.contains(address) {
        return internal_alignment.max(external_alignment);
    }
    internal_alignment
}

#[tactic(auto, unfolding(crate::specs::Burst::aligned_of))]
fn ensure_buffer_aligned(
    address: u32,
    length: u32,
    direction: TransferDirection,
    alignment: u32,
) -> Result<(), DmaBufError>
    requires { 0 < alignment }
    ensures { result ≡ aligned_of address length direction alignment }
{
    if address % alignment != 0 {
        return Err(DmaBufError::InvalidAlignment(DmaAlignmentError::Address));
    }
    if direction.is_in() && length % alignment != 0 {
        return Err(DmaBufError::InvalidAlignment(DmaAlignmentError::Size));
    }
    Ok(())
}

// The external alignment that the Rust asks for Out is 1: a caller passes 1 for Out.
#[tactic(auto, unfolding(crate::specs::Burst::compatible_of))]
pub fn ensure_buffer_compatible(
    address: u32,
    length: u32,
    direction: TransferDirection,
    internal: Region,
    external: Region,
    internal_alignment: u32,
    external_alignment: u32,
) -> Result<(), DmaBufError>
    ensures { result ≡ compatible_of address length direction internal external internal_alignment external_alignment }
{
    if !is_good(internal_alignment) || !is_good(external_alignment) {
        return Err(DmaBufError::BadAlignment);
    }
    if length == 0 {
        return Ok(());
    }
    let start = address as u64;
    let end = start + length as u64;
    if !is_supported(start, end, internal, external) {
        return Err(DmaBufError::UnsupportedMemoryRegion);
    }
    let alignment = min_alignment(start, external, internal_alignment, external_alignment);
    ensure_buffer_aligned(address, length, direction, alignment)
}
