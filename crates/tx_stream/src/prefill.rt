// Before `prepare`: bytes behind the prefilled ones. The records stay as they are.
ghost use Rattle.std.specs.Prelude.{◌≡◌, ◌+◌, ◌^◌, ◌<◌, length};
ghost use Rattle.descriptors.specs.Ring.{ring_of, head_of};
ghost use Rattle.descriptors.specs.Part.{part_from, as_read};
ghost use Rattle.tx_stream.specs.Transmit.{prefill_of, prefill_into, prefill_offer_of, prefill_offer_refusal_of, prefill_commit_of};
ghost use Rattle.tx_stream.specs.Faces.{prefilled_head, prefill_place};

use crate::copy;
use descriptors::refusal::DmaBufError;
use descriptors::ring;
use descriptors::ring::Head;

fn prefilled_by(h: &mut Head, k: usize)
    requires { h.old.pre_filled + k < 2 ^ 64 }
    ensures { h.new ≡ prefilled_head h.old k }
{
    h.tally = h.tally.wrapping_add((k % 4294967296) as u32);
    h.pre_filled += k;
}

// The Rust's `push` before `prepare`.
pub fn prefill_in<'a>(
    s: &'a [u32],
    w: &'a [u16],
    h: &mut Head,
    buffer: &mut [u8],
    data: &[u8],
) -> Result<usize, DmaBufError>
    ensures h_after { h.new ≡ head_of (prefill_of (ring_of s.now w.now h.old) (length buffer.old) (length «data».now)).ring }
    ensures value { result ≡ (prefill_of (ring_of s.now w.now h.old) (length buffer.old) (length «data».now)).answer }
    ensures buffer_after { buffer.new ≡ prefill_into (ring_of s.now w.now h.old) buffer.old «data».now }
{
    ring::judge_split(s, w, *h, buffer.len())?;
    let at = h.pre_filled;
    let accepted = data.len().min(buffer.len() - at);
    copy::copy_to(buffer, at, &data[..accepted]);
    prefilled_by(h, accepted);
    Ok(accepted)
}

// All behind the prefilled bytes, to be written before a commit; empty on a refusal, which the companion names.
pub fn prefill_offer_in<'a, 'b>(
    s: &'b [u32],
    w: &'b [u16],
    h: Head,
    buffer: &'a mut [u8],
) -> &'a mut [u8]
    ensures result_value { result.now ≡ prefill_offer_of (ring_of s.now w.now h) buffer.old }
    ensures ref_ptr_value { result.ref_ptr ≡ part_from (as_read buffer.entry) (prefill_place (ring_of s.now w.now h) buffer.old) }
{
    let Ok(()) = ring::judge_split(s, w, h, buffer.len()) else {
        return &mut buffer[..0];
    };
    &mut buffer[h.pre_filled..]
}

pub fn prefill_offer_refusal_in<'a>(
    s: &'a [u32],
    w: &'a [u16],
    h: Head,
    len: usize,
) -> Result<(), DmaBufError>
    ensures { result ≡ prefill_offer_refusal_of (ring_of s.now w.now h) len }
{
    ring::judge_split(s, w, h, len)
}

pub fn prefill_commit_in<'a>(
    s: &'a [u32],
    w: &'a [u16],
    h: &mut Head,
    len: usize,
    k: usize,
) -> Result<usize, DmaBufError>
    ensures h_after { h.new ≡ head_of (prefill_commit_of (ring_of s.now w.now h.old) len k).ring }
    ensures value { result ≡ (prefill_commit_of (ring_of s.now w.now h.old) len k).answer }
{
    ring::judge_split(s, w, *h, len)?;
    if len - h.pre_filled < k {
        return Err(DmaBufError::TooMuch);
    }
    prefilled_by(h, k);
    Ok(k)
}
