// What is on offer, as a place and a length.
ghost use Rattle.std.specs.Prelude.{◌≡◌};
ghost use Rattle.descriptors.specs.Ring.{ring_of};
ghost use Rattle.capi.specs.Parts.{offer_said, prefill_offer_said};

use crate::answer::Said;
use descriptors::cells;
use descriptors::refusal::DmaBufError;
use descriptors::ring::Head;
use tx_stream::{in_place, prefill};

// The free bytes from the cursor to the buffer's end.
pub(crate) fn offered<'a>(
    s: &'a [u32],
    w: &'a [u16],
    h: Head,
    len: usize,
) -> Result<Said, DmaBufError>
    ensures { result ≡ offer_said (ring_of s.now w.now h) len }
{
    let free = in_place::available_in(s, w, h, len)?;
    let at = cells::start_of(s, h.descriptor_idx) as usize + h.descriptor_offset;
    Ok(Said {
        first: at,
        second: free.min(len - at),
        third: 0,
    })
}

// Before `prepare`: all behind the prefilled bytes.
pub(crate) fn prefill_offered<'a>(
    s: &'a [u32],
    w: &'a [u16],
    h: Head,
    len: usize,
) -> Result<Said, DmaBufError>
    ensures { result ≡ prefill_offer_said (ring_of s.now w.now h) len }
{
    prefill::prefill_offer_refusal_in(s, w, h, len)?;
    Ok(Said {
        first: h.pre_filled,
        second: len - h.pre_filled,
        third: 0,
    })
}
