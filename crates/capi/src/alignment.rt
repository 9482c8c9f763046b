// The alignment check. direction: 0 In, 1 Out; regions are half-open.
ghost use Rattle.std.specs.Prelude.{◌≡◌};
ghost use Rattle.capi.specs.Pieces.{direction_of};
ghost use Rattle.capi.specs.Alignment.{compatible_number};

use crate::answer;
use burst::Region;
use descriptors::record::TransferDirection;
use descriptors::refusal::DmaBufError;

// Numbers name directions in C: the C interface.
fn direction_of(direction: u32) -> TransferDirection
    ensures { result ≡ direction_of direction }
{
    match direction {
        0 => TransferDirection::In,
        _ => TransferDirection::Out,
    }
}

#[tactic(auto, unfolding(crate::specs::Alignment::compatible_number))]
#[unsafe(no_mangle)]
pub extern "C" fn dma_ensure_buffer_compatible(
    address: u32,
    len: u32,
    direction: u32,
    internal_low: u64,
    internal_high: u64,
    external_low: u64,
    external_high: u64,
    internal_alignment: u32,
    external_alignment: u32,
) -> u32
    ensures { result ≡ compatible_number direction address len (record { start = internal_low; end = internal_high }) (record { start = external_low; end = external_high }) internal_alignment external_alignment }
{
    if 1 < direction {
        return answer::number(DmaBufError::BadState);
    }
    let internal = Region {
        start: internal_low,
        end: internal_high,
    };
    let external = Region {
        start: external_low,
        end: external_high,
    };
    let outcome = burst::ensure_buffer_compatible(
        address,
        len,
        direction_of(direction),
        internal,
        external,
        internal_alignment,
        external_alignment,
    );
    answer::done(outcome)
}
