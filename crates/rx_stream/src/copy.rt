// The bytes of the CPU-owned run, copied over the front of a destination: one copy for each piece, not one for each record.
ghost use Rattle.std.specs.Prelude.{◌≡◌, ◌+◌, ◌≤◌, true, length, drop};
ghost use Rattle.std.proofs.Math.Seq.{paste};
ghost use Rattle.descriptors.specs.Ring.{ring_of, sound};
ghost use Rattle.descriptors.specs.Walk.{standing};
ghost use Rattle.rx_stream.specs.Receive.{over};
ghost use Rattle.rx_stream.specs.Pieces.{wrapped};

use crate::piece;
use descriptors::cells;
use descriptors::record::TransferDirection;
use descriptors::ring::Head;

// Place i, or the first one past the last.
fn wrapped(n: usize, i: usize) -> usize
    ensures { result ≡ wrapped n i }
{
    if i < n { i } else { 0 }
}

// Copies m bytes of src, from index start on, to dst from index at on.
fn copy_part(src: &[u8], start: usize, dst: &mut [u8], at: usize, m: usize)
    requires { (start + m ≤ length src.now) × (at + m ≤ length dst.old) }
    ensures { dst.new ≡ paste dst.old at (drop start src.now) m }
{
    dst[at..at + m].copy_from_slice(&src[start..start + m]);
}

pub(crate) fn copy_run<'a>(s: &'a [u32], w: &'a [u16], h: Head, src: &[u8], dst: &mut [u8])
    requires { sound TransferDirection.In (ring_of s.now w.now h) (length src.now) ≡ true }
    ensures { dst.new ≡ over (standing TransferDirection.In (ring_of s.now w.now h) src.now) dst.old }
{
    let n = h.count;
    let k = dst.len();
    let mut at = h.descriptor_idx;
    let mut offset = h.descriptor_offset;
    let mut done: usize = 0;
    let mut left = n;
    // no `for`: each turn passes as many records as its piece has
    while 0 < left {
        let end = n.min(at + left);
        let want = k - done;
        let p = piece::piece_of(w, end, at, offset, want);
        if p.records == 0 {
            return;
        }
        let start = cells::start_of(s, at) as usize + offset;
        if want <= p.bytes {
            copy_part(src, start, dst, done, want);
            return;
        }
        copy_part(src, start, dst, done, p.bytes);
        done += p.bytes;
        at = wrapped(n, at + p.records);
        offset = 0;
        left -= p.records;
    }
}
