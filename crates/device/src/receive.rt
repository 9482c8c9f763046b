// The receive step: the device fills the record that it stands on, and moves on.
ghost use Rattle.std.specs.Prelude.{◌≡◌, [], ◌+◌, ◌≤◌, length};
ghost use Rattle.std.proofs.Math.Seq.{paste};
ghost use Rattle.descriptors.specs.Cells.{record_at};
ghost use Rattle.device.specs.Device.{fits};
ghost use Rattle.device.specs.Faces.{close_cells, ReceivedIn};

use crate::stand;
use descriptors::cells;
use descriptors::record::{Owner, TransferDirection};
use descriptors::refusal::DmaBufError;
use descriptors::ring::Head;

// A step fills 1 to size bytes.
fn step_fits(w: &[u16], i: usize, k: usize) -> bool
    ensures { result ≡ fits k (record_at [] w.now i) }
{
    if k == 0 {
        return false;
    }
    k <= cells::size_of(w, i)
}

// Record i is closed with k bytes: the CPU's from now on.
fn close(w: &mut [u16], i: usize, k: u16, eof: bool)
    ensures { w.new ≡ close_cells i k eof w.old }
{
    cells::set_length(w, i, k);
    cells::set_suc_eof(w, i, eof);
    cells::set_owner(w, i, Owner::Cpu);
}

// The bytes go into the buffer, from index `at` on.
fn place(buffer: &mut [u8], at: usize, incoming: &[u8])
    requires { at + length incoming.now ≤ length buffer.old }
    ensures { buffer.new ≡ paste buffer.old at incoming.now (length incoming.now) }
{
    let end = at + incoming.len();
    buffer[at..end].copy_from_slice(incoming);
}

// One receive step over lent words: the bytes go to the record's start. It answers 5, then 7, then 6; it looks at no owner.
pub fn receive_step_in(
    s: &[u32],
    w: &mut [u16],
    h: Head,
    device: &mut Option<u16>,
    buffer: &mut [u8],
    incoming: &[u8],
    eof: bool,
) -> Result<(), DmaBufError>
    ensures { ReceivedIn s.now w.old h device.old buffer.old incoming.now eof w.new buffer.new device.new result }
{
    let i = stand::find(TransferDirection::In, s, w, h, buffer.len(), *device)?;
    if !step_fits(w, i, incoming.len()) {
        return Err(DmaBufError::BadStep);
    }
    *device = cells::next_of(w, i);
    let start = cells::start_of(s, i) as usize;
    place(buffer, start, incoming);
    close(w, i, incoming.len() as u16, eof);
    Ok(())
}
