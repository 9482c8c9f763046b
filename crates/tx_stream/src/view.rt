// The ring by value, while the device sends: each call takes the ring and gives it back, over the call in place.
ghost use Rattle.std.specs.Prelude.{◌≡◌, length};
ghost use Rattle.descriptors.specs.Part.{part_from, as_read};
ghost use Rattle.tx_stream.specs.Transmit.{available_of, push_of, push_into, offer_of, offer_refusal_of, commit_of, advance_of};
ghost use Rattle.tx_stream.specs.Faces.{offer_place};
ghost use Rattle.descriptors.specs.Ring.{kept_of};
ghost use Rattle.tx_stream.specs.Values.{view_ring, view_by};

use crate::in_place;
use descriptors::cells::CELLS;
use descriptors::record::LIMIT;
use descriptors::refusal::DmaBufError;
use descriptors::ring::{Head, Kept};

// A view into a DmaTxStreamBuf.
// Four types of one shape, two in each direction: the names and the states are the Rust's.
#[derive(Clone, Copy, Debug, PartialEq, Eq)]
pub struct DmaTxStreamBufView {
    pub starts: [u32; LIMIT],
    pub cells: [u16; CELLS],
    pub head: Head,
}

// The bodies are alike, but each call is the one in place of its own name.
impl DmaTxStreamBufView {
    // The number of bytes available for writing.
    pub fn available_bytes(self, len: usize) -> Result<usize, DmaBufError>
        ensures { result ≡ available_of (view_ring self) len }
    {
        // the words lie in variables: lent out of the ring, the whole of it is copied once more
        let DmaTxStreamBufView {
            starts,
            cells,
            head,
        } = self;
        in_place::available_in(&starts, &cells, head, len)
    }

    // Pushes data into the stream buffer, as much as is available.
    pub fn push(self, buffer: &mut [u8], data: &[u8]) -> Kept<DmaTxStreamBufView, usize>
        ensures value { result ≡ kept_of (view_by self) (push_of (view_ring self) (length buffer.old) (length «data».now)) }
        ensures buffer_after { buffer.new ≡ push_into (view_ring self) buffer.old «data».now }
    {
        let mut ring = self;
        let answer = in_place::push_in(&ring.starts, &mut ring.cells, &mut ring.head, buffer, data);
        Kept { ring, answer }
    }

    // The Rust's `push_with`, in two: the part on offer, to be written, and then a commit.
    pub fn offer<'a>(self, buffer: &'a mut [u8]) -> &'a mut [u8]
        ensures result_value { result.now ≡ offer_of (view_ring self) buffer.old }
        ensures ref_ptr_value { result.ref_ptr ≡ part_from (as_read buffer.entry) (offer_place (view_ring self) buffer.old) }
    {
        in_place::offer_in(&self.starts, &self.cells, self.head, buffer)
    }

    pub fn offer_refusal(self, len: usize) -> Result<(), DmaBufError>
        ensures { result ≡ offer_refusal_of (view_ring self) len }
    {
        in_place::offer_refusal_in(&self.starts, &self.cells, self.head, len)
    }

    // Accepts the first k bytes of the part on offer.
    pub fn commit(self, len: usize, k: usize) -> Kept<DmaTxStreamBufView, usize>
        ensures { result ≡ kept_of (view_by self) (commit_of (view_ring self) len k) }
    {
        let mut ring = self;
        let answer = in_place::commit_in(&ring.starts, &mut ring.cells, &mut ring.head, len, k);
        Kept { ring, answer }
    }

    // Accepts the first k of the available bytes.
    pub fn advance(self, len: usize, k: usize) -> Kept<DmaTxStreamBufView, usize>
        ensures { result ≡ kept_of (view_by self) (advance_of (view_ring self) len k) }
    {
        let mut ring = self;
        let answer = in_place::advance_in(&ring.starts, &mut ring.cells, &mut ring.head, len, k);
        Kept { ring, answer }
    }

    // The bytes accepted so far, which go round at 4,294,967,296.
    pub fn tally(self) -> u32
        ensures { result ≡ self.head.tally }
    {
        self.head.tally
    }
}
