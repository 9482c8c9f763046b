// Consume from a lent cursor, over a ring whose own cursor stands elsewhere, and from the ring's own cursor. A refused one leaves the
// ring standing elsewhere.
use descriptors::cells;
use descriptors::cells::CELLS;
use descriptors::record::{LIMIT, Owner};
use descriptors::ring::{Head, Kept};
use lent::cursor::Cursor;
use rx_stream::Took;
use rx_stream::buf::DmaRxStreamBuf;
use rx_stream::view::DmaRxStreamBufView;
use std::io;

// The buffer of row D.
const LEN: usize = 14;

fn standing(ring: DmaRxStreamBufView, count: usize, i: usize, o: usize) -> DmaRxStreamBufView {
    let head = Head {
        count,
        descriptor_idx: i,
        descriptor_offset: o,
        ..ring.head
    };
    DmaRxStreamBufView { head, ..ring }
}

// Record i, filled by the device.
fn filled(mut ring: DmaRxStreamBufView, i: usize, length: u16, eof: bool) -> DmaRxStreamBufView {
    cells::set_length(&mut ring.cells, i, length);
    cells::set_suc_eof(&mut ring.cells, i, eof);
    cells::set_owner(&mut ring.cells, i, Owner::Cpu);
    ring
}

// The ring of row D, prepared.
fn ring_of_d() -> DmaRxStreamBufView {
    let built = DmaRxStreamBuf::new([0; LIMIT], [0; CELLS], 4, &[0; LEN]);
    built.ring.prepare(LEN).ring.into_view()
}

// The ring with the first record larger than its part.
fn unsound(mut ring: DmaRxStreamBufView) -> DmaRxStreamBufView {
    cells::set_size(&mut ring.cells, 0, 4);
    ring
}

// What the lent form has to answer and leave: what the by-value one does, but after a refusal the ring that it was given.
fn wanted(
    value: Kept<DmaRxStreamBufView, Took>,
    given: DmaRxStreamBufView,
) -> Kept<DmaRxStreamBufView, Took> {
    match value.answer {
        Ok(_) => value,
        Err(_) => Kept {
            ring: given,
            ..value
        },
    }
}

// k bytes taken from (i, o) on, of a ring of n: the ring that the by-value consume leaves.
fn run_case(
    rt: &impl Print,
    name: &str,
    ring: DmaRxStreamBufView,
    n: usize,
    i: usize,
    o: usize,
    k: usize,
) -> io::Result<DmaRxStreamBufView> {
    let astray = standing(ring, n, 9, 99);
    let start = Cursor {
        record: i,
        offset: o,
    };
    let step = lent::cursor::consume_with(start, astray, LEN, k);
    let value = standing(ring, n, i, o).consume(LEN, k);
    let at = step.cursor;
    let left = step.done.ring.head;
    let own = Cursor {
        record: value.ring.head.descriptor_idx,
        offset: value.ring.head.descriptor_offset,
    };
    let refused = crate::number(step.done.answer);
    let Took { taken, back } = step.done.answer.unwrap_or(Took { taken: 0, back: 0 });
    let same = at == own && step.done == wanted(value, astray);
    println!(rt;
        "{name} answered {refused}, taken {taken}, back {back}, cursor {} {}, the ring at {} {}: {}",
        at.record,
        at.offset,
        left.descriptor_idx,
        left.descriptor_offset,
        crate::verdict(same)
    )?;
    Ok(value.ring)
}

pub fn run(rt: &impl Print) -> io::Result<()> {
    let empty = ring_of_d();
    let ring = filled(filled(empty, 0, 3, false), 1, 2, true);
    let one = run_case(rt, "consume 4", ring, 4, 0, 0, 4)?;
    let two = run_case(rt, "consume 4", one, 4, 1, 1, 4)?;
    let full = filled(filled(two, 2, 3, false), 3, 5, false);
    let three = run_case(rt, "consume 5", full, 4, 2, 0, 5)?;
    let four = run_case(rt, "consume all", three, 4, 3, 2, 100)?;
    let hollow = filled(four, 0, 0, false);
    run_case(rt, "consume 0 of an empty record", hollow, 4, 0, 0, 0)?;
    run_case(rt, "nothing to consume", four, 4, 0, 0, 1)?;
    run_case(rt, "too few records", ring, 3, 0, 0, 4)?;
    run_case(rt, "too many records", ring, 65, 0, 0, 4)?;
    run_case(rt, "unsound ring", unsound(ring), 4, 0, 0, 4)?;
    run_case(rt, "record out of range", ring, 4, 4, 0, 4)?;
    run_case(rt, "0 bytes, record out of range", empty, 4, 4, 0, 0)?;
    run_case(rt, "offset out of range", ring, 4, 1, 2, 4)?;
    run_case(rt, "offset in a DMA-owned record", ring, 4, 2, 1, 4)?;
    Ok(())
}
