// Every public call of the rings, the device, the alignment check and the pieces, for C and Rust to link: on numbers and lent slices,
// each a pointer and a length. A ring is three lent slices: head (five words), starts and cells. Each call returns the number of its
// refusal, 0 where it is done.
#![tactic(auto)]

mod words; // words.rt: a ring's head as words
mod answer; // answer.rt: what a call says, and the answer's words
mod fresh; // fresh.rt: both `new`s over lent words
mod flat; // flat.rt: what peek shows, as a place and a length
mod offer; // offer.rt: what is on offer, as a place and a length
pub mod receive; // receive.rt: the receive ring
pub mod transmit; // transmit.rt: the transmit ring
pub mod steps; // steps.rt: the device's steps
pub mod alignment; // alignment.rt: the alignment check
pub mod pieces; // pieces.rt: head and tail of a range
