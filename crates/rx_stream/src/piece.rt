// What lies in one piece from a record on: through full records, to the end of the first short one, before a DMA-owned one, or to
// the end of record n-1.
ghost use Rattle.std.specs.Prelude.{◌≡◌, ◌-◌, ◌<◌, false, [], if◌then◌else◌, nat_le, nat_lt};
ghost use Rattle.descriptors.specs.Record.{limit};
ghost use Rattle.descriptors.specs.Cells.{cell, record_at};
ghost use Rattle.rx_stream.specs.Receive.{ends_with, flat_bytes, flat_eof};
ghost use Rattle.rx_stream.specs.Pieces.{piece_of, nothing};

use descriptors::cells;
use descriptors::record::LIMIT;

fn is_short(w: &[u16], i: usize) -> bool
    ensures { result ≡ nat_lt (cell 1 w.now i) (cell 0 w.now i) }
{
    cells::length_of(w, i) < cells::size_of(w, i)
}

// Whether a piece ends with record i.
fn ends_with(w: &[u16], until_eof: bool, i: usize) -> bool
    ensures { result ≡ ends_with until_eof (record_at [] w.now i) }
{
    is_short(w, i) || (until_eof && cells::suc_eof_of(w, i))
}

// How many bytes lie in one piece from the start of record i on.
pub fn flat_bytes(w: &[u16], until_eof: bool, n: usize, i: usize) -> usize
    ensures { result ≡ (if nat_le n limit then flat_bytes until_eof (record_at [] w.now) (n - i) i else 0) }
{
    if LIMIT < n {
        return 0;
    }
    let mut total: usize = 0;
    for at in i..n {
        if !cells::owner_of(w, at).is_cpu() {
            return total;
        }
        total += cells::length_of(w, at);
        if ends_with(w, until_eof, at) {
            return total;
        }
    }
    total
}

// Whether that piece, cut at the first EOF record, ends with one.
pub fn flat_eof(w: &[u16], n: usize, i: usize) -> bool
    ensures { result ≡ (if nat_le n limit then flat_eof (record_at [] w.now) (n - i) i else false) }
{
    if LIMIT < n {
        return false;
    }
    for at in i..n {
        if !cells::owner_of(w, at).is_cpu() {
            return false;
        }
        if cells::suc_eof_of(w, at) {
            return true;
        }
        if is_short(w, at) {
            return false;
        }
    }
    false
}

// The bytes and the records of a piece.
#[derive(Clone, Copy, Debug, PartialEq, Eq, Default)]
pub struct Piece {
    pub bytes: usize,
    pub records: usize,
}

// What record i holds from its byte o on.
fn holds(w: &[u16], i: usize, o: usize) -> usize
    ensures { (result ≡ cell 1 w.now i - o) × (result < 65536) }
{
    cells::length_of(w, i).saturating_sub(o)
}

// The piece from byte o of record i on, of the records before `end`; it goes on no longer than until it holds `want` bytes.
pub(crate) fn piece_of(w: &[u16], end: usize, i: usize, o: usize, want: usize) -> Piece
    ensures { result ≡ (if nat_le end limit then piece_of (record_at [] w.now) o want (end - i) i else nothing) }
{
    let mut piece = Piece::default();
    if LIMIT < end {
        return piece;
    }
    let mut offset = o;
    for at in i..end {
        if !cells::owner_of(w, at).is_cpu() {
            return piece;
        }
        piece.bytes += holds(w, at, offset);
        piece.records += 1;
        if want <= piece.bytes {
            return piece;
        }
        if is_short(w, at) {
            return piece;
        }
        offset = 0;
    }
    piece
}
