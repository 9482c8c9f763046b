// What is free from the cursor on, and where it lies.
ghost use Rattle.std.specs.Prelude.{◌≡◌, ◌+◌, ◌-◌, ◌<◌, ◌≤◌, min};
ghost use Rattle.descriptors.specs.Cells.{start_at};
ghost use Rattle.descriptors.specs.Moves.{room_in};

use descriptors::record::TransferDirection;
use descriptors::ring::Head;
use descriptors::{cells, walk};

// Where the next byte goes.
pub(crate) fn write_position(s: &[u32], h: Head) -> usize
    requires { h.descriptor_offset < 65536 }
    ensures { result ≡ start_at s.now h.descriptor_idx + h.descriptor_offset }
{
    cells::start_of(s, h.descriptor_idx) as usize + h.descriptor_offset
}

// How much of it lies in one piece, before the buffer's end.
pub(crate) fn offered<'a>(w: &'a [u16], h: Head, at: usize, len: usize) -> usize
    requires { at ≤ len }
    ensures { result ≡ min (room_in TransferDirection.Out w.now h) (len - at) }
{
    walk::available(w, TransferDirection::Out, h).min(len - at)
}
