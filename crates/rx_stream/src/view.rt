// The ring during a transfer, ring in and ring out.
ghost use Rattle.std.specs.Prelude.{◌≡◌, true, false, length};
ghost use Rattle.descriptors.specs.Part.{part_from};
ghost use Rattle.descriptors.specs.Ring.{ring_of, kept_of};
ghost use Rattle.rx_stream.specs.Receive.{available_of, peek_of, peek_place, peek_refusal_of, peek_eof_of, consume_of, pop_of, popped_over};
ghost use Rattle.rx_stream.specs.Faces.{view_now};

use crate::{Took, in_place};
use descriptors::cells::CELLS;
use descriptors::record::LIMIT;
use descriptors::refusal::DmaBufError;
use descriptors::ring::{Head, Kept};

// Four types of one shape, two in each direction: the names and the states are the Rust's.
#[derive(Clone, Copy, Debug, PartialEq, Eq)]
pub struct DmaRxStreamBufView {
    pub starts: [u32; LIMIT],
    pub cells: [u16; CELLS],
    pub head: Head,
}

// The bodies are alike, but each call is the one in place of its own name.
impl DmaRxStreamBufView {
    // The number of bytes that are available to read from a buffer of len bytes.
    pub fn available_bytes(self, len: usize) -> Result<usize, DmaBufError>
        ensures { result ≡ available_of (ring_of self.starts self.cells self.head) len }
    {
        // here and in `peek` the words lie in variables: lent out of the ring, the whole of it is copied once more
        let DmaRxStreamBufView {
            starts,
            cells,
            head,
        } = self;
        in_place::available_in(&starts, &cells, head, len)
    }

    // The longest part of the buffer, from the cursor on, that holds bytes to read. It ignores EOFs.
    pub fn peek(self, buffer: &[u8]) -> &[u8]
        ensures result_value { result.now ≡ peek_of false (ring_of self.starts self.cells self.head) buffer.now }
        ensures ref_ptr_value { result.ref_ptr ≡ part_from buffer.entry (peek_place (ring_of self.starts self.cells self.head) buffer.now) }
    {
        let DmaRxStreamBufView {
            starts,
            cells,
            head,
        } = self;
        in_place::peek_in(&starts, &cells, head, buffer)
    }

    // The same, but it does not skip over any EOF.
    pub fn peek_until_eof(self, buffer: &[u8]) -> &[u8]
        ensures result_value { result.now ≡ peek_of true (ring_of self.starts self.cells self.head) buffer.now }
        ensures ref_ptr_value { result.ref_ptr ≡ part_from buffer.entry (peek_place (ring_of self.starts self.cells self.head) buffer.now) }
    {
        in_place::peek_until_eof_in(&self.starts, &self.cells, self.head, buffer)
    }

    // Why a peek of this ring is empty, if it was refused.
    pub fn peek_refusal(self, len: usize) -> Result<(), DmaBufError>
        ensures { result ≡ peek_refusal_of (ring_of self.starts self.cells self.head) len }
    {
        in_place::peek_refusal_in(&self.starts, &self.cells, self.head, len)
    }

    // Whether the part of peek_until_eof ends with an EOF.
    pub fn peek_eof(self, len: usize) -> Result<bool, DmaBufError>
        ensures { result ≡ peek_eof_of (ring_of self.starts self.cells self.head) len }
    {
        in_place::peek_eof_in(&self.starts, &self.cells, self.head, len)
    }

    // Consumes the first k bytes, or all there are, and gives fully consumed records back to the device.
    pub fn consume(mut self, len: usize, k: usize) -> Kept<DmaRxStreamBufView, Took>
        ensures { result ≡ kept_of (view_now self) (consume_of (ring_of self.starts self.cells self.head) len k) }
    {
        let answer = in_place::consume_in(&self.starts, &mut self.cells, &mut self.head, len, k);
        Kept { ring: self, answer }
    }

    // Reads as much as possible into dst from the available bytes.
    pub fn pop(mut self, buffer: &[u8], dst: &mut [u8]) -> Kept<DmaRxStreamBufView, usize>
        ensures value { result ≡ kept_of (view_now self) (pop_of (ring_of self.starts self.cells self.head) (length buffer.now) (length dst.old)) }
        ensures dst_after { dst.new ≡ popped_over (ring_of self.starts self.cells self.head) buffer.now dst.old }
    {
        let answer = in_place::pop_in(&self.starts, &mut self.cells, &mut self.head, buffer, dst);
        Kept { ring: self, answer }
    }

    // The bytes taken so far, round and round 2^32. Two readings differ by ring::between.
    pub fn tally(self) -> u32
        ensures { result ≡ self.head.tally }
    {
        self.head.tally
    }
}
