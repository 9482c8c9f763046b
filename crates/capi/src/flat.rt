// What peek shows, as a place and a length: the numbers of the part that `rx_stream` hands back.
ghost use Rattle.std.specs.Prelude.{◌≡◌};
ghost use Rattle.descriptors.specs.Ring.{ring_of};
ghost use Rattle.capi.specs.Parts.{peek_said, until_eof_said};

use crate::answer::Said;
use descriptors::record::TransferDirection;
use descriptors::refusal::DmaBufError;
use descriptors::ring::Head;
use descriptors::{cells, ring};
use rx_stream::piece;

pub(crate) fn peeked<'a>(
    s: &'a [u32],
    w: &'a [u16],
    h: Head,
    until_eof: bool,
    len: usize,
) -> Result<Said, DmaBufError>
    ensures { result ≡ peek_said until_eof (ring_of s.now w.now h) len }
{
    ring::judge(TransferDirection::In, s, w, h, len)?;
    let i = h.descriptor_idx;
    let bytes = piece::flat_bytes(w, until_eof, h.count, i);
    let start = cells::start_of(s, i) as usize;
    Ok(Said {
        first: start + h.descriptor_offset,
        second: bytes - h.descriptor_offset,
        third: 0,
    })
}

// The same with the yes or no.
pub(crate) fn until_eof<'a>(
    s: &'a [u32],
    w: &'a [u16],
    h: Head,
    len: usize,
) -> Result<Said, DmaBufError>
    ensures { result ≡ until_eof_said (ring_of s.now w.now h) len }
{
    let said = peeked(s, w, h, true, len)?;
    let eof = piece::flat_eof(w, h.count, h.descriptor_idx);
    Ok(Said {
        third: usize::from(eof),
        ..said
    })
}
