// Bytes accepted from the cursor on: the records that they fill go to the device, and the tally counts them.
ghost use Rattle.std.specs.Prelude.{◌≡◌, leb, if◌then◌else◌};
ghost use Rattle.tx_stream.specs.Faces.{filled_cells, filled_head};

use descriptors::record::TransferDirection;
use descriptors::refusal::DmaBufError;
use descriptors::ring::Head;
use descriptors::walk;

pub(crate) fn accept_in(w: &mut [u16], h: &mut Head, k: usize)
    ensures { (w.new ≡ filled_cells w.old h.old k) × (h.new ≡ filled_head w.old h.old k) }
{
    walk::advance(w, TransferDirection::Out, h, k);
}

// More than the bound is refused, not cut.
pub(crate) fn accept_up_to(
    w: &mut [u16],
    h: &mut Head,
    k: usize,
    bound: usize,
) -> Result<usize, DmaBufError>
    ensures w_after { w.new ≡ (if leb k bound then filled_cells w.old h.old k else w.old) }
    ensures h_after { h.new ≡ (if leb k bound then filled_head w.old h.old k else h.old) }
    ensures value { result ≡ (if leb k bound then Ok k else Err DmaBufError.TooMuch) }
{
    if bound < k {
        return Err(DmaBufError::TooMuch);
    }
    accept_in(w, h, k);
    Ok(k)
}
