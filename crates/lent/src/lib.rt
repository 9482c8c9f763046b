// The two thin forms over what is lent, above the covered core: a list of plain records that `new` splits a buffer over, and the
// receive cursor that a consume moves. Each has a caller by value.
#![tactic(auto)]

pub mod list; // list.rt: `new` over a lent list of records
pub mod cursor; // cursor.rt: consume from a lent cursor
