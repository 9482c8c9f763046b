// "the device fills 01 02 03, then 04 05 with EOF .."
use crate::say;
use crate::say::{Hex, Said};
use descriptors::cells;
use device::{by_value, stand};
use rx_stream::buf::DmaRxStreamBuf;
use rx_stream::view::DmaRxStreamBufView;
use std::io;

// The ring and the device that a fill leaves.
fn fill(
    rt: &impl Print,
    ring: DmaRxStreamBufView,
    device: Option<u16>,
    buffer: &mut [u8],
    incoming: &[u8],
    eof: bool,
) -> io::Result<(DmaRxStreamBufView, Option<u16>)> {
    let step = by_value::receive_step(ring, device, buffer, incoming, eof);
    println!(rt; "fill {}", say::done(step.answer))?;
    Ok((step.ring, step.device))
}

fn pop(
    rt: &impl Print,
    ring: DmaRxStreamBufView,
    buffer: &[u8],
    dst: &mut [u8],
) -> io::Result<DmaRxStreamBufView> {
    let popped = ring.pop(buffer, dst);
    let front = popped.answer.map(|k| Hex(&dst[..k.min(dst.len())]));
    println!(rt; "pop {}", Said(front))?;
    say::cursor(rt, popped.ring.head)?;
    Ok(popped.ring)
}

fn looks(rt: &impl Print, ring: DmaRxStreamBufView, buffer: &[u8]) -> io::Result<()> {
    println!(rt; "available {}", Said(ring.available_bytes(buffer.len())))?;
    println!(rt; "peek {}", Hex(ring.peek(buffer)))?;
    println!(rt; "peek_until_eof {}", Hex(ring.peek_until_eof(buffer)))?;
    let ended = ring.peek_eof(buffer.len());
    println!(rt; "{}", Said(ended.map(|yes| if yes { "yes" } else { "no" })))
}

fn next(rt: &impl Print, ring: DmaRxStreamBufView, i: usize) -> io::Result<()> {
    match cells::next_of(&ring.cells, i) {
        None => println!(rt; "next of {i} none"),
        Some(next) => println!(rt; "next of {i} {next}"),
    }
}

pub fn run(rt: &impl Print) -> io::Result<()> {
    let mut buffer = [0; 14];
    let built = DmaRxStreamBuf::new([0; 64], [0; 320], 4, &buffer);
    println!(rt; "rx 4 14 {}", say::done(built.answer))?;
    let prepared = built.ring.prepare(14);
    println!(rt; "prepare {}", say::done(prepared.answer))?;
    let view = prepared.ring.into_view();
    let (ring, device) = fill(rt, view, stand::start(), &mut buffer, &[1, 2, 3], false)?;
    let (ring, device) = fill(rt, ring, device, &mut buffer, &[4, 5], true)?;
    looks(rt, ring, &buffer)?;
    let mut four = [0; 4];
    let ring = pop(rt, ring, &buffer, &mut four)?;
    next(rt, ring, 3)?;
    next(rt, ring, 0)?;
    let ring = pop(rt, ring, &buffer, &mut four)?;
    later(rt, ring, device, buffer)
}

// The second half: records 2 and 3, and the part of record 3 that is left.
fn later(
    rt: &impl Print,
    ring: DmaRxStreamBufView,
    device: Option<u16>,
    mut buffer: [u8; 14],
) -> io::Result<()> {
    let (ring, device) = fill(rt, ring, device, &mut buffer, &[6, 7, 8], false)?;
    let last = [9, 10, 11, 12, 13];
    let (ring, _) = fill(rt, ring, device, &mut buffer, &last, false)?;
    let ring = pop(rt, ring, &buffer, &mut [0; 5])?;
    println!(rt; "peek {}", Hex(ring.peek(&buffer)))
}
