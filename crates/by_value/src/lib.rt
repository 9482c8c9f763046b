// The calls by value, each behind one call from outside: the ring goes in and comes back by value, and a refusal has 0 bytes. To be timed
// and measured (docs/BENCH.md); libcapi.a has the calls in place.
#![tactic(auto)]

ghost use Rattle.std.specs.Prelude.{◌≡◌, false, length};
ghost use Rattle.rx_stream.specs.Receive.{peek_of, consume_of, pop_of, popped_over};
ghost use Rattle.rx_stream.specs.Receive as receive;
ghost use Rattle.tx_stream.specs.Transmit.{push_of, push_into, advance_of};
ghost use Rattle.tx_stream.specs.Transmit as transmit;
ghost use Rattle.by_value.specs.ByValue.{given, head_in, rx_of, tx_of, whole, bytes_of, counted_of, took_of};

use descriptors::cells::CELLS;
use descriptors::record::LIMIT;
use descriptors::ring::{Head, Kept};
use rx_stream::view::DmaRxStreamBufView;
use tx_stream::view::DmaTxStreamBufView;

// Ring and Answered lie as C's structs do: the C interface.
#[repr(C)]
#[derive(Clone, Copy, Debug)]
pub struct Ring {
    pub starts: [u32; LIMIT],
    pub cells: [u16; CELLS],
    pub count: usize,
    pub record: usize,
    pub offset: usize,
    pub tally: u32,
    pub prefilled: usize,
}

#[repr(C)]
#[derive(Clone, Copy, Debug)]
pub struct Answered {
    pub ring: Ring,
    pub bytes: usize,
}

impl From<Ring> for Head {
    ghost from_gives = { λ ring head. head ≡ head_in ring };

    fn from(ring: Ring) -> Head {
        Head {
            count: ring.count,
            descriptor_idx: ring.record,
            descriptor_offset: ring.offset,
            tally: ring.tally,
            pre_filled: ring.prefilled,
        }
    }
}

impl From<Ring> for DmaRxStreamBufView {
    ghost from_gives = { λ ring view. view ≡ rx_of ring };

    fn from(ring: Ring) -> DmaRxStreamBufView {
        let Ring { starts, cells, .. } = ring;
        DmaRxStreamBufView {
            starts,
            cells,
            head: Head::from(ring),
        }
    }
}

impl From<Ring> for DmaTxStreamBufView {
    ghost from_gives = { λ ring view. view ≡ tx_of ring };

    fn from(ring: Ring) -> DmaTxStreamBufView {
        let Ring { starts, cells, .. } = ring;
        DmaTxStreamBufView {
            starts,
            cells,
            head: Head::from(ring),
        }
    }
}

// Words and head in one struct.
fn whole(starts: [u32; LIMIT], cells: [u16; CELLS], head: Head) -> Ring
    ensures { result ≡ whole starts cells head }
{
    Ring {
        starts,
        cells,
        count: head.count,
        record: head.descriptor_idx,
        offset: head.descriptor_offset,
        tally: head.tally,
        prefilled: head.pre_filled,
    }
}

impl From<DmaRxStreamBufView> for Ring {
    ghost from_gives = { λ view ring. ring ≡ whole view.starts view.cells view.head };

    fn from(view: DmaRxStreamBufView) -> Ring {
        whole(view.starts, view.cells, view.head)
    }
}

impl From<DmaTxStreamBufView> for Ring {
    ghost from_gives = { λ view ring. ring ≡ whole view.starts view.cells view.head };

    fn from(view: DmaTxStreamBufView) -> Ring {
        whole(view.starts, view.cells, view.head)
    }
}

#[unsafe(no_mangle)]
pub extern "C" fn value_rx_available(ring: Ring, len: usize) -> usize
    ensures { result ≡ bytes_of (receive.available_of (given ring) len) }
{
    let available = DmaRxStreamBufView::from(ring).available_bytes(len);
    available.unwrap_or(0)
}

#[unsafe(no_mangle)]
pub extern "C" fn value_rx_peek(ring: Ring, buffer: &[u8]) -> usize
    ensures { result ≡ length (peek_of false (given ring) buffer.now) }
{
    DmaRxStreamBufView::from(ring).peek(buffer).len()
}

#[unsafe(no_mangle)]
pub extern "C" fn value_rx_consume(ring: Ring, len: usize, k: usize) -> Answered
    ensures { result ≡ took_of ring (consume_of (given ring) len k) }
{
    let Kept { ring, answer } = DmaRxStreamBufView::from(ring).consume(len, k);
    Answered {
        ring: Ring::from(ring),
        bytes: answer.map_or(0, |took| took.taken),
    }
}

#[unsafe(no_mangle)]
pub extern "C" fn value_rx_pop(ring: Ring, buffer: &[u8], destination: &mut [u8]) -> Answered
    ensures value { result ≡ counted_of ring (pop_of (given ring) (length buffer.now) (length destination.old)) }
    ensures destination_after { destination.new ≡ popped_over (given ring) buffer.now destination.old }
{
    let Kept { ring, answer } = DmaRxStreamBufView::from(ring).pop(buffer, destination);
    Answered {
        ring: Ring::from(ring),
        bytes: answer.unwrap_or(0),
    }
}

#[unsafe(no_mangle)]
pub extern "C" fn value_tx_available(ring: Ring, len: usize) -> usize
    ensures { result ≡ bytes_of (transmit.available_of (given ring) len) }
{
    let free = DmaTxStreamBufView::from(ring).available_bytes(len);
    free.unwrap_or(0)
}

#[unsafe(no_mangle)]
pub extern "C" fn value_tx_push(ring: Ring, buffer: &mut [u8], data: &[u8]) -> Answered
    ensures value { result ≡ counted_of ring (push_of (given ring) (length buffer.old) (length «data».now)) }
    ensures buffer_after { buffer.new ≡ push_into (given ring) buffer.old «data».now }
{
    let Kept { ring, answer } = DmaTxStreamBufView::from(ring).push(buffer, data);
    Answered {
        ring: Ring::from(ring),
        bytes: answer.unwrap_or(0),
    }
}

#[unsafe(no_mangle)]
pub extern "C" fn value_tx_advance(ring: Ring, len: usize, k: usize) -> Answered
    ensures { result ≡ counted_of ring (advance_of (given ring) len k) }
{
    let Kept { ring, answer } = DmaTxStreamBufView::from(ring).advance(len, k);
    Answered {
        ring: Ring::from(ring),
        bytes: answer.unwrap_or(0),
    }
}
