// `prepare`: all the records linked and the device's, then those that hold prefilled bytes marked, and the list ended before the rest.
ghost use Rattle.std.specs.Prelude.{◌≡◌, ◌<◌, ◌≤◌, []};
ghost use Rattle.descriptors.specs.Record.{up_to};
ghost use Rattle.descriptors.specs.Cells.{record_at, cells_now};
ghost use Rattle.descriptors.specs.Ring.{ring_of, head_of};
ghost use Rattle.tx_stream.specs.Transmit.{reached, prepare_of};
ghost use Rattle.tx_stream.specs.Faces.{fill_cells, cut_cells, marked_cells, marked_cursor};

use descriptors::record::{Owner, TransferDirection};
use descriptors::refusal::DmaBufError;
use descriptors::ring::Head;
use descriptors::{cells, ring, walk};

#[derive(Clone, Copy)]
pub struct Cursor {
    pub at: usize,
    pub offset: usize,
}

// The record in which the bytes end, n if they fill all of them, and how many are inside it.
fn end_of(w: &[u16], n: usize, bytes_pushed: usize) -> Cursor
    ensures { (result.at ≡ (reached (record_at [] w.now) n 0 bytes_pushed).at) × (result.offset ≡ (reached (record_at [] w.now) n 0 bytes_pushed).rest) × (result.at < n → result.offset < 65536) }
{
    let mut remaining = bytes_pushed;
    for d in 0..n {
        let size = cells::size_of(w, d);
        if remaining < size {
            return Cursor {
                at: d,
                offset: remaining,
            };
        }
        remaining -= size;
    }
    Cursor {
        at: n,
        offset: remaining,
    }
}

// The first `end` records are filled whole.
fn mark_filled(w: &mut [u16], end: usize)
    ensures { w.new ≡ up_to fill_cells end w.old }
{
    for d in 0..end {
        let size = cells::size_of(w, d);
        cells::set_length(w, d, size as u16);
        cells::set_suc_eof(w, d, true);
    }
}

// The list ends before record `start`, and the records from there on are the CPU's.
fn terminate_tx_stream_at(w: &mut [u16], n: usize, start: usize)
    requires { start ≤ n }
    ensures { w.new ≡ up_to (cut_cells start) n w.old }
{
    if 0 < start {
        cells::set_next(w, start - 1, None);
    }
    for i in start..n {
        cells::set_owner(w, i, Owner::Cpu);
    }
}

// Marks the records that hold data to be sent when the transfer starts, and answers the cursor.
fn mark_tx_stream_descriptors_ready(w: &mut [u16], n: usize, bytes_pushed: usize) -> Cursor
    requires { 0 < n }
    ensures { (w.new ≡ marked_cells n bytes_pushed w.old) × (result ≡ marked_cursor n bytes_pushed w.old) }
{
    if bytes_pushed == 0 {
        return Cursor { at: 0, offset: 0 };
    }
    let end = end_of(w, n, bytes_pushed);
    if end.at == n {
        mark_filled(w, n);
        return Cursor { at: 0, offset: 0 };
    }
    if end.at == 0 {
        // The transfer needs a record at least: the first goes short, and filling goes on at the next.
        cells::set_length(w, 0, end.offset as u16);
        cells::set_suc_eof(w, 0, true);
        terminate_tx_stream_at(w, n, 1);
        return Cursor { at: 1, offset: 0 };
    }
    mark_filled(w, end.at);
    terminate_tx_stream_at(w, n, end.at);
    end
}

pub fn prepare_in(s: &[u32], w: &mut [u16], h: &mut Head, len: usize) -> Result<(), DmaBufError>
    ensures w_after { w.new ≡ cells_now s.now w.old (prepare_of (ring_of s.now w.old h.old) len).ring.descriptors }
    ensures h_after { h.new ≡ head_of (prepare_of (ring_of s.now w.old h.old) len).ring }
    ensures value { result ≡ (prepare_of (ring_of s.now w.old h.old) len).answer }
{
    ring::judge_split(s, w, *h, len)?;
    walk::link_all(w, TransferDirection::Out, h.count);
    let cursor = mark_tx_stream_descriptors_ready(w, h.count, h.pre_filled);
    *h = Head {
        descriptor_idx: cursor.at,
        descriptor_offset: cursor.offset,
        pre_filled: 0,
        ..*h
    };
    Ok(())
}
