// The two lent forms, run beside the by-value ones on document 01's examples and on refusals: a line for each, that says what was
// answered and whether both answered and left the same.
#![tactic(auto)]

use descriptors::refusal::DmaBufError;
use std::io;

mod list; // list.rt: `new` over a lent list, and over words by value
mod cursor; // cursor.rt: consume from a lent cursor, and from the ring's own

// A refusal's number, or 0.
fn number<A: Drop>(answer: Result<A, DmaBufError>) -> u8 {
    answer.err().map_or(0, |e| u8::from(e))
}

fn verdict(same: bool) -> &'static str {
    if same { "same" } else { "differs" }
}

fn main(rt: HostRuntime) -> io::Result<()> {
    list::run(&rt)?;
    cursor::run(&rt)
}
