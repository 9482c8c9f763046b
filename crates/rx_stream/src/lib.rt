// The stream receive ring: the device fills records, the firmware takes their bytes in order and gives the records back. The work
// is done in place, on lent words; document 01's calls, ring in and ring out, stand above it.
#![tactic(auto)]

pub mod piece; // piece.rt: what lies in one piece from a record on
mod copy; // copy.rt: the bytes of the CPU-owned run, copied piece by piece
pub mod in_place; // in_place.rt: the calls over lent words
pub mod buf; // buf.rt: DmaRxStreamBuf, a ring before and after a transfer
pub mod view; // view.rt: DmaRxStreamBufView, a ring during a transfer

// What a consume answers: the bytes taken and the records gone back.
#[derive(Clone, Copy, Debug, PartialEq, Eq)]
pub struct Took {
    pub taken: usize,
    pub back: usize,
}
