// The ground floor: the records of a ring and how they are stored, the refusals, the split of a buffer, and what both directions
// share: the CPU-owned run from the cursor, the walk over it, and the records handed to the device.
#![tactic(auto)]

pub mod record; // record.rt: a record's fields, as the Rust names them
pub mod refusal; // refusal.rt: what the counter clerk says no to
pub mod cells; // cells.rt: the words in which a ring stores its records, their single stores and readings
pub mod place; // place.rt: places round a ring
pub mod split; // split.rt: a buffer split over n records
pub mod ring; // ring.rt: count, cursor, tally and prefilled count; what is sound
pub mod walk; // walk.rt: the CPU-owned run from the cursor, walked over and handed to the device
