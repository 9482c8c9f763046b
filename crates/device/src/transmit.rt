// The transmit step: the device sends the record that it stands on, and moves on.
ghost use Rattle.std.specs.Prelude.{◌≡◌, ◌++◌, ◌+◌, ◌≤◌, length, take, drop};
ghost use Rattle.descriptors.specs.Cells.{put_owner};
ghost use Rattle.device.specs.Faces.{SentIn};

use crate::stand;
use descriptors::cells;
use descriptors::record::{Owner, TransferDirection};
use descriptors::refusal::DmaBufError;
use descriptors::ring::Head;

// Record i is sent: the CPU's from now on, its length and its mark as they were.
fn release(w: &mut [u16], i: usize)
    ensures { w.new ≡ put_owner w.old i Owner.Cpu }
{
    cells::set_owner(w, i, Owner::Cpu);
}

// k bytes of the buffer, from index `at` on, go to the output's front.
fn send(buffer: &[u8], at: usize, k: usize, out: &mut [u8])
    requires { (at + k ≤ length buffer.now) × (k ≤ length out.old) }
    ensures { out.new ≡ take k (drop at buffer.now) ++ drop k out.old }
{
    let end = at + k;
    out[..k].copy_from_slice(&buffer[at..end]);
}

// One transmit step over lent words: the record's bytes go to the output's front. It answers 5, then 7; an output that is too short
// is 5 as well, and is judged only where there is a record. It looks at no owner.
pub fn transmit_step_in(
    s: &[u32],
    w: &mut [u16],
    h: Head,
    device: &mut Option<u16>,
    buffer: &[u8],
    out: &mut [u8],
) -> Result<usize, DmaBufError>
    ensures { SentIn s.now w.old h device.old buffer.now out.old w.new out.new device.new result }
{
    let i = stand::find(TransferDirection::Out, s, w, h, buffer.len(), *device)?;
    let k = cells::length_of(w, i);
    if out.len() < k {
        return Err(DmaBufError::BadState);
    }
    *device = cells::next_of(w, i);
    let start = cells::start_of(s, i) as usize;
    send(buffer, start, k, out);
    release(w, i);
    Ok(k)
}
