// The calls over lent words: starts, cells and the head. Words that hold no records are an unsound ring: refusal 5.
ghost use Rattle.std.specs.Prelude.{◌≡◌, true, false, ◌&&◌, ◌||◌, [], length, ◌==◌};
ghost use Rattle.descriptors.specs.Record.{is_cpu};
ghost use Rattle.descriptors.specs.Cells.{cells_now, record_at};
ghost use Rattle.descriptors.specs.Stores.{hand_all};
ghost use Rattle.descriptors.specs.Part.{part_from};
ghost use Rattle.descriptors.specs.Ring.{ring_of, head_of};
ghost use Rattle.rx_stream.specs.Receive.{prepare_of, available_of, peek_of, peek_place, peek_refusal_of, peek_eof_of, consume_of, pop_of, popped_over};
ghost use Rattle.descriptors.specs.Moves.{moved_in, head_moved};
ghost use Rattle.rx_stream.specs.Faces.{took_by};

use crate::{Took, copy, piece};
use descriptors::record::TransferDirection;
use descriptors::refusal::DmaBufError;
use descriptors::ring::Head;
use descriptors::{cells, ring, walk};

pub fn prepare_in(s: &[u32], w: &mut [u16], h: &mut Head, len: usize) -> Result<(), DmaBufError>
    ensures w_after { w.new ≡ cells_now s.now w.old (prepare_of (ring_of s.now w.old h.old) len).ring.descriptors }
    ensures h_after { h.new ≡ head_of (prepare_of (ring_of s.now w.old h.old) len).ring }
    ensures value { result ≡ (prepare_of (ring_of s.now w.old h.old) len).answer }
{
    ring::judge_split(s, w, *h, len)?;
    walk::link_all(w, TransferDirection::In, h.count);
    h.descriptor_idx = 0;
    h.descriptor_offset = 0;
    Ok(())
}

// The number of bytes that are available to read.
pub fn available_in<'a>(
    s: &'a [u32],
    w: &'a [u16],
    h: Head,
    len: usize,
) -> Result<usize, DmaBufError>
    ensures { result ≡ available_of (ring_of s.now w.now h) len }
{
    ring::judge(TransferDirection::In, s, w, h, len)?;
    Ok(walk::available(w, TransferDirection::In, h))
}

// ---- the part that can be read without a copy

fn part_in<'a, 'b>(
    s: &'b [u32],
    w: &'b [u16],
    h: Head,
    until_eof: bool,
    buffer: &'a [u8],
) -> &'a [u8]
    ensures result_value { result.now ≡ peek_of until_eof (ring_of s.now w.now h) buffer.now }
    ensures ref_ptr_value { result.ref_ptr ≡ part_from buffer.entry (peek_place (ring_of s.now w.now h) buffer.now) }
{
    let Ok(()) = ring::judge(TransferDirection::In, s, w, h, buffer.len()) else {
        return &buffer[0..0];
    };
    let i = h.descriptor_idx;
    let bytes = piece::flat_bytes(w, until_eof, h.count, i);
    let start = cells::start_of(s, i) as usize;
    let from = start + h.descriptor_offset;
    let to = start + bytes;
    &buffer[from..to]
}

// The longest part of the buffer, from the cursor on, that holds bytes to read. It ignores EOFs.
pub fn peek_in<'a, 'b>(s: &'b [u32], w: &'b [u16], h: Head, buffer: &'a [u8]) -> &'a [u8]
    ensures result_value { result.now ≡ peek_of false (ring_of s.now w.now h) buffer.now }
    ensures ref_ptr_value { result.ref_ptr ≡ part_from buffer.entry (peek_place (ring_of s.now w.now h) buffer.now) }
{
    part_in(s, w, h, false, buffer)
}

// The same, but it does not skip over any EOF.
pub fn peek_until_eof_in<'a, 'b>(s: &'b [u32], w: &'b [u16], h: Head, buffer: &'a [u8]) -> &'a [u8]
    ensures result_value { result.now ≡ peek_of true (ring_of s.now w.now h) buffer.now }
    ensures ref_ptr_value { result.ref_ptr ≡ part_from buffer.entry (peek_place (ring_of s.now w.now h) buffer.now) }
{
    part_in(s, w, h, true, buffer)
}

// Why a peek of these words is empty, if it was refused: as on transmit but for the direction, which the caller's name has.
pub fn peek_refusal_in<'a>(
    s: &'a [u32],
    w: &'a [u16],
    h: Head,
    len: usize,
) -> Result<(), DmaBufError>
    ensures { result ≡ peek_refusal_of (ring_of s.now w.now h) len }
{
    ring::judge(TransferDirection::In, s, w, h, len)
}

// Whether the part of peek_until_eof_in ends with an EOF.
pub fn peek_eof_in<'a>(s: &'a [u32], w: &'a [u16], h: Head, len: usize) -> Result<bool, DmaBufError>
    ensures { result ≡ peek_eof_of (ring_of s.now w.now h) len }
{
    ring::judge(TransferDirection::In, s, w, h, len)?;
    Ok(piece::flat_eof(w, h.count, h.descriptor_idx))
}

// ---- bytes taken

// Takes k bytes, or all there are, from the cursor on: the core of consume and pop, total on any words.
fn take_in(w: &mut [u16], h: &mut Head, k: usize) -> Took
    ensures w_after { w.new ≡ hand_all TransferDirection.In h.old.count (moved_in TransferDirection.In w.old h.old k).back h.old.descriptor_idx w.old }
    ensures h_after { h.new ≡ head_moved h.old k (moved_in TransferDirection.In w.old h.old k) }
    ensures value { result ≡ took_by k (moved_in TransferDirection.In w.old h.old k) }
{
    let m = walk::advance(w, TransferDirection::In, h, k);
    Took {
        taken: k - m.rest,
        back: m.back,
    }
}

// Consumes the first k bytes, or all there are, and gives fully consumed records back to the device.
pub fn consume_in(
    s: &[u32],
    w: &mut [u16],
    h: &mut Head,
    len: usize,
    k: usize,
) -> Result<Took, DmaBufError>
    ensures w_after { w.new ≡ cells_now s.now w.old (consume_of (ring_of s.now w.old h.old) len k).ring.descriptors }
    ensures h_after { h.new ≡ head_of (consume_of (ring_of s.now w.old h.old) len k).ring }
    ensures value { result ≡ (consume_of (ring_of s.now w.old h.old) len k).answer }
{
    ring::judge(TransferDirection::In, s, w, *h, len)?;
    Ok(take_in(w, h, k))
}

// Whether a pop of k bytes takes none, and leaves empty records as they are.
fn idle(w: &[u16], i: usize, k: usize) -> bool
    ensures { result ≡ (k == 0 || (is_cpu (record_at [] w.now i).owner && (record_at [] w.now i).length == 0)) }
{
    k == 0 || (cells::owner_of(w, i).is_cpu() && cells::length_of(w, i) == 0)
}

// Reads as much as possible into dst from the available bytes.
pub fn pop_in(
    s: &[u32],
    w: &mut [u16],
    h: &mut Head,
    buffer: &[u8],
    dst: &mut [u8],
) -> Result<usize, DmaBufError>
    ensures w_after { w.new ≡ cells_now s.now w.old (pop_of (ring_of s.now w.old h.old) (length buffer.now) (length dst.old)).ring.descriptors }
    ensures h_after { h.new ≡ head_of (pop_of (ring_of s.now w.old h.old) (length buffer.now) (length dst.old)).ring }
    ensures dst_after { dst.new ≡ popped_over (ring_of s.now w.old h.old) buffer.now dst.old }
    ensures value { result ≡ (pop_of (ring_of s.now w.old h.old) (length buffer.now) (length dst.old)).answer }
{
    ring::judge(TransferDirection::In, s, w, *h, buffer.len())?;
    let k = dst.len();
    if idle(w, h.descriptor_idx, k) {
        return Ok(0);
    }
    copy::copy_run(s, w, *h, buffer, dst);
    Ok(take_in(w, h, k).taken)
}
