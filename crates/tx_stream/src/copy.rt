// Bytes copied behind a place of the buffer, round its end: at most two pieces, each in one go.
ghost use Rattle.std.specs.Prelude.{◌≡◌, ◌+◌, ◌≤◌, length, take};
ghost use Rattle.std.proofs.Math.Seq.{paste};
ghost use Rattle.tx_stream.specs.Transmit.{paste_round};

pub(crate) fn copy_to(buffer: &mut [u8], at: usize, piece: &[u8])
    requires { at + length piece.now ≤ length buffer.old }
    ensures { buffer.new ≡ paste buffer.old at piece.now (length piece.now) }
{
    let end = at + piece.len();
    buffer[at..end].copy_from_slice(piece);
}

pub(crate) fn copy_round(buffer: &mut [u8], at: usize, data: &[u8], k: usize)
    requires { (at ≤ length buffer.old) × (k ≤ length buffer.old) × (k ≤ length «data».now) }
    ensures { buffer.new ≡ paste_round buffer.old at (take k «data».now) }
{
    let first = k.min(buffer.len() - at);
    copy_to(buffer, at, &data[..first]);
    copy_to(buffer, 0, &data[first..k]);
}
