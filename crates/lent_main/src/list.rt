// `new` over a lent list of records, and by value over words that show the same records.
use descriptors::cells;
use descriptors::cells::{CELLS, Words};
use descriptors::record::{DmaDescriptor, LIMIT, Owner, TransferDirection};
use descriptors::refusal::DmaBufError;
use lent::list::{ROOM, Records};
use rx_stream::buf::DmaRxStreamBuf;
use std::{array, io};
use tx_stream::buf::DmaTxStreamBuf;

// The longest buffer of the examples.
const BYTES: usize = 16381;

// What a `new` leaves, as words that show the first records, with the record after them; and what it answers.
#[derive(Clone, Copy, PartialEq, Eq)]
struct Outcome {
    starts: [u32; LIMIT],
    cells: [u16; CELLS],
    last: DmaDescriptor,
    answer: Result<(), DmaBufError>,
}

// Records with something in every field.
fn lent_record(i: usize) -> DmaDescriptor {
    let k = (i % 100) as u16;
    DmaDescriptor {
        buffer: 70000,
        size: 77,
        length: k,
        suc_eof: k % 2 == 0,
        owner: if k % 3 == 0 { Owner::Dma } else { Owner::Cpu },
        next: if k % 5 == 0 { None } else { Some(k) },
    }
}

fn lent_records() -> Records {
    Records {
        list: array::from_fn(lent_record),
    }
}

fn outcome_of(list: [DmaDescriptor; ROOM], answer: Result<(), DmaBufError>) -> Outcome {
    let mut starts = [0; LIMIT];
    let mut cells = [0; CELLS];
    for i in 0..LIMIT {
        cells::set_descriptor(&mut starts, &mut cells, i, list[i]);
    }
    Outcome {
        starts,
        cells,
        last: list[LIMIT],
        answer,
    }
}

fn over_list(dir: TransferDirection, n: usize, len: usize) -> Outcome {
    let laid = lent::list::new_with(dir, lent_records(), n, len);
    outcome_of(laid.ring.list, laid.answer)
}

fn by_value(dir: TransferDirection, n: usize, buffer: &[u8]) -> Outcome {
    let lent = outcome_of(lent_records().list, Ok(()));
    let (words, answer) = match dir {
        TransferDirection::In => {
            let built = DmaRxStreamBuf::new(lent.starts, lent.cells, n, buffer);
            (built.ring.split(), built.answer)
        }
        TransferDirection::Out => {
            let built = DmaTxStreamBuf::new(lent.starts, lent.cells, n, buffer);
            (built.ring.split(), built.answer)
        }
    };
    let Words { starts, cells } = words;
    Outcome {
        starts,
        cells,
        answer,
        ..lent
    }
}

fn run_way(
    rt: &impl Print,
    name: &str,
    way: &str,
    dir: TransferDirection,
    n: usize,
    buffer: &[u8],
) -> io::Result<()> {
    let len = buffer.len();
    let lent = over_list(dir, n, len);
    let value = by_value(dir, n, buffer);
    let refused = crate::number(lent.answer);
    let verdict = crate::verdict(lent == value);
    println!(rt; "{name} {way} {n} {len} answered {refused}: {verdict}")
}

// n records and the buffer, in both directions.
fn run_case(rt: &impl Print, name: &str, n: usize, buffer: &[u8]) -> io::Result<()> {
    run_way(rt, name, "receive", TransferDirection::In, n, buffer)?;
    run_way(rt, name, "transmit", TransferDirection::Out, n, buffer)
}

pub fn run(rt: &impl Print) -> io::Result<()> {
    let bytes = [0; BYTES];
    run_case(rt, "A", 4, &bytes[..3])?;
    run_case(rt, "B", 4, &bytes[..4])?;
    run_case(rt, "C", 4, &bytes[..11])?;
    run_case(rt, "D", 4, &bytes[..14])?;
    run_case(rt, "E", 4, &bytes[..15])?;
    run_case(rt, "F", 4, &bytes[..16377])?;
    run_case(rt, "G", 4, &bytes[..16378])?;
    run_case(rt, "H", 4, &bytes[..16380])?;
    run_case(rt, "I", 4, &bytes)?;
    run_case(rt, "no records", 0, &bytes[..14])?;
    run_case(rt, "too few", 3, &bytes[..14])?;
    run_case(rt, "the most", 64, &bytes[..710])?;
    run_case(rt, "too many", 65, &bytes[..700])?;
    run_case(rt, "more than lent", 66, &bytes[..700])?;
    run_case(rt, "chunk 0", 64, &bytes[..63])
}
