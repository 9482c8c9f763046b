// The stream transmit ring: bytes prefilled, `prepare`, then bytes pushed, offered and committed while the device sends. The calls work
// in place, on lent words and a lent head; `DmaTxStreamBuf` and `DmaTxStreamBufView` are the same calls with the ring by value.
#![tactic(auto)]

mod copy; // copy.rt: bytes copied behind a place, round the buffer's end
mod room; // room.rt: what is free from the cursor on, and where it lies
mod accept; // accept.rt: bytes accepted from the cursor on
pub mod prefill; // prefill.rt: the calls before `prepare`, in place
pub mod prepare; // prepare.rt: `prepare`, in place
pub mod in_place; // in_place.rt: the calls after `prepare`, in place
pub mod view; // view.rt: the ring by value, while the device sends
pub mod buf; // buf.rt: the ring by value, before that
