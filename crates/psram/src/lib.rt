// A range of external memory as a list of pieces: the bytes before the first whole line and those after the last one go by the
// bounce store, the lines between them directly.
#![tactic(auto)]

pub mod chip; // chip.rt: what the chips differ in, and what they share
pub mod plan; // plan.rt: what a range is cut into
pub mod cut; // cut.rt: head, middle and tail of a range
pub mod held; // held.rt: where a piece lies, and what a list of pieces answers
pub mod piece; // piece.rt: the numbered piece, and the part of the store or of the range that holds it
pub mod list; // list.rt: the records that the pieces are given to
