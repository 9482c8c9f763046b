// After `prepare`, while the device sends.
ghost use Rattle.std.specs.Prelude.{◌≡◌, length};
ghost use Rattle.descriptors.specs.Cells.{cells_now};
ghost use Rattle.descriptors.specs.Ring.{ring_of, head_of};
ghost use Rattle.descriptors.specs.Part.{part_from, as_read};
ghost use Rattle.tx_stream.specs.Transmit.{available_of, push_of, push_into, offer_of, offer_refusal_of, commit_of, advance_of};
ghost use Rattle.tx_stream.specs.Faces.{offer_place};

use crate::{accept, copy, room};
use descriptors::record::TransferDirection;
use descriptors::refusal::DmaBufError;
use descriptors::ring::Head;
use descriptors::{ring, walk};

pub fn available_in<'a>(
    s: &'a [u32],
    w: &'a [u16],
    h: Head,
    len: usize,
) -> Result<usize, DmaBufError>
    ensures { result ≡ available_of (ring_of s.now w.now h) len }
{
    ring::judge(TransferDirection::Out, s, w, h, len)?;
    Ok(walk::available(w, TransferDirection::Out, h))
}

pub fn push_in(
    s: &[u32],
    w: &mut [u16],
    h: &mut Head,
    buffer: &mut [u8],
    data: &[u8],
) -> Result<usize, DmaBufError>
    ensures w_after { w.new ≡ cells_now s.now w.old (push_of (ring_of s.now w.old h.old) (length buffer.old) (length «data».now)).ring.descriptors }
    ensures h_after { h.new ≡ head_of (push_of (ring_of s.now w.old h.old) (length buffer.old) (length «data».now)).ring }
    ensures value { result ≡ (push_of (ring_of s.now w.old h.old) (length buffer.old) (length «data».now)).answer }
    ensures buffer_after { buffer.new ≡ push_into (ring_of s.now w.old h.old) buffer.old «data».now }
{
    ring::judge(TransferDirection::Out, s, w, *h, buffer.len())?;
    let free = walk::available(w, TransferDirection::Out, *h);
    let k = data.len().min(free);
    copy::copy_round(buffer, room::write_position(s, *h), data, k);
    accept::accept_in(w, h, k);
    Ok(k)
}

// The free bytes from the cursor to the buffer's end, to be written before a commit; empty on a refusal, which the companion names.
pub fn offer_in<'a, 'b>(s: &'b [u32], w: &'b [u16], h: Head, buffer: &'a mut [u8]) -> &'a mut [u8]
    ensures result_value { result.now ≡ offer_of (ring_of s.now w.now h) buffer.old }
    ensures ref_ptr_value { result.ref_ptr ≡ part_from (as_read buffer.entry) (offer_place (ring_of s.now w.now h) buffer.old) }
{
    let len = buffer.len();
    let Ok(()) = ring::judge(TransferDirection::Out, s, w, h, len) else {
        return &mut buffer[..0];
    };
    let at = room::write_position(s, h);
    let end = at + room::offered(w, h, at, len);
    &mut buffer[at..end]
}

// As on receive but for the direction, which the caller's name has.
pub fn offer_refusal_in<'a>(
    s: &'a [u32],
    w: &'a [u16],
    h: Head,
    len: usize,
) -> Result<(), DmaBufError>
    ensures { result ≡ offer_refusal_of (ring_of s.now w.now h) len }
{
    ring::judge(TransferDirection::Out, s, w, h, len)
}

// The bytes then standing in the part on offer are accepted, k of them.
pub fn commit_in(
    s: &[u32],
    w: &mut [u16],
    h: &mut Head,
    len: usize,
    k: usize,
) -> Result<usize, DmaBufError>
    ensures w_after { w.new ≡ cells_now s.now w.old (commit_of (ring_of s.now w.old h.old) len k).ring.descriptors }
    ensures h_after { h.new ≡ head_of (commit_of (ring_of s.now w.old h.old) len k).ring }
    ensures value { result ≡ (commit_of (ring_of s.now w.old h.old) len k).answer }
{
    ring::judge(TransferDirection::Out, s, w, *h, len)?;
    let at = room::write_position(s, *h);
    let part = room::offered(w, *h, at, len);
    accept::accept_up_to(w, h, k, part)
}

// The bytes then standing from the cursor on are accepted, k of them.
pub fn advance_in(
    s: &[u32],
    w: &mut [u16],
    h: &mut Head,
    len: usize,
    k: usize,
) -> Result<usize, DmaBufError>
    ensures w_after { w.new ≡ cells_now s.now w.old (advance_of (ring_of s.now w.old h.old) len k).ring.descriptors }
    ensures h_after { h.new ≡ head_of (advance_of (ring_of s.now w.old h.old) len k).ring }
    ensures value { result ≡ (advance_of (ring_of s.now w.old h.old) len k).answer }
{
    ring::judge(TransferDirection::Out, s, w, *h, len)?;
    let bound = walk::available(w, TransferDirection::Out, *h);
    accept::accept_up_to(w, h, k, bound)
}
