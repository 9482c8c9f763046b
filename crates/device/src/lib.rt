// The device, as module 5 has it: it stands on a record or is stopped, never looks at the owner, and moves to the next that it reads.
#![tactic(auto)]

pub mod stand; // stand.rt: where a step finds the device
pub mod receive; // receive.rt: the receive step
pub mod transmit; // transmit.rt: the transmit step
pub mod by_value; // by_value.rt: both steps with the ring by value
