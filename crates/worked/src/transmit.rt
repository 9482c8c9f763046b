// Transmit on D: prefill 2, prefill 3, prefill 4 and push 5, prefill 14.
use crate::say;
use crate::say::Said;
use descriptors::cells;
use std::io;
use tx_stream::buf::DmaTxStreamBuf;
use tx_stream::view::DmaTxStreamBufView;

fn prefilled(rt: &impl Print, part: &[u8]) -> io::Result<DmaTxStreamBufView> {
    let mut buffer = [0; 14];
    let built = DmaTxStreamBuf::new([0; 64], [0; 320], 4, &buffer);
    let pushed = built.ring.push(&mut buffer, part);
    println!(rt; "prefill {}", Said(pushed.answer))?;
    let prepared = pushed.ring.prepare(14);
    println!(rt; "prepare {}", say::done(prepared.answer))?;
    let view = prepared.ring.into_view();
    println!(rt; "length of 0 {}", cells::length_of(&view.cells, 0))?;
    say::cursor(rt, view.head)?;
    println!(rt; "available {}", Said(view.available_bytes(14)))?;
    Ok(view)
}

pub fn run(rt: &impl Print) -> io::Result<()> {
    prefilled(rt, &[170; 2])?;
    prefilled(rt, &[170; 3])?;
    let view = prefilled(rt, &[170; 4])?;
    let pushed = view.push(&mut [0; 14], &[1, 2, 3, 4, 5]);
    println!(rt; "push {}", Said(pushed.answer))?;
    say::cursor(rt, pushed.ring.head)?;
    prefilled(rt, &[170; 14])?;
    Ok(())
}
