// Document 01's worked examples on D (4 records, 14 bytes) and the bad inputs that each have their refusal, run on the proved calls.
#![tactic(auto)]

use std::io;

mod say; // say.rt: answers as text
mod receive; // receive.rt: the receive example
mod transmit; // transmit.rt: the transmit examples
mod edges; // edges.rt: bad input

fn main(rt: HostRuntime) -> io::Result<()> {
    receive::run(&rt)?;
    transmit::run(&rt)?;
    edges::run(&rt)
}
