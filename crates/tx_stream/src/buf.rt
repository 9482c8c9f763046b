// The ring by value, before the device sends: each call takes the ring and gives it back, over the call in place.
ghost use Rattle.std.specs.Prelude.{◌≡◌, length};
ghost use Rattle.descriptors.specs.Cells.{records_of};
ghost use Rattle.descriptors.specs.Ring.{new_of, kept_of};
ghost use Rattle.descriptors.specs.Part.{part_from, as_read};
ghost use Rattle.tx_stream.specs.Transmit.{prefill_of, prefill_into, prefill_offer_of, prefill_offer_refusal_of, prefill_commit_of, prepare_of};
ghost use Rattle.tx_stream.specs.Faces.{prefill_place};
ghost use Rattle.tx_stream.specs.Values.{buf_ring, buf_by, built_by};

use crate::view::DmaTxStreamBufView;
use crate::{prefill, prepare};
use descriptors::cells::{CELLS, Words};
use descriptors::record::{LIMIT, TransferDirection};
use descriptors::refusal::DmaBufError;
use descriptors::ring;
use descriptors::ring::{Head, Kept};

// Four types of one shape, two in each direction: the names and the states are the Rust's.
#[derive(Clone, Copy, Debug, PartialEq, Eq)]
pub struct DmaTxStreamBuf {
    pub starts: [u32; LIMIT],
    pub cells: [u16; CELLS],
    pub head: Head,
}

impl DmaTxStreamBuf {
    // The buffer evenly distributed between the first n of the given records.
    pub fn new(
        starts: [u32; LIMIT],
        cells: [u16; CELLS],
        n: usize,
        buffer: &[u8],
    ) -> Kept<DmaTxStreamBuf, ()>
        ensures { result ≡ kept_of (built_by starts cells) (new_of TransferDirection.Out (records_of starts cells) n (length buffer.now)) }
    {
        let mut ring = DmaTxStreamBuf {
            starts,
            cells,
            head: Head::default(),
        };
        let made = ring::new_in(
            TransferDirection::Out,
            &mut ring.starts,
            &mut ring.cells,
            n,
            buffer.len(),
        );
        ring.head = made.ring;
        Kept {
            ring,
            answer: made.answer,
        }
    }

    // Gives the records back. An array goes through a variable, here and below: tried straight in the literal, and the check does not take it.
    pub fn split(self) -> Words
        ensures { result ≡ record { starts = self.starts; cells = self.cells } }
    {
        let starts = self.starts;
        let cells = self.cells;
        Words { starts, cells }
    }

    // Pushes data into the buffer before the transfer starts. The more is prefilled, the more head-room is left to push more.
    pub fn push(self, buffer: &mut [u8], data: &[u8]) -> Kept<DmaTxStreamBuf, usize>
        ensures value { result ≡ kept_of (buf_by self) (prefill_of (buf_ring self) (length buffer.old) (length «data».now)) }
        ensures buffer_after { buffer.new ≡ prefill_into (buf_ring self) buffer.old «data».now }
    {
        let mut ring = self;
        let answer = prefill::prefill_in(&ring.starts, &ring.cells, &mut ring.head, buffer, data);
        Kept { ring, answer }
    }

    // The Rust's `push_with`, in two: the part on offer, to be written, and then a commit.
    pub fn offer<'a>(self, buffer: &'a mut [u8]) -> &'a mut [u8]
        ensures result_value { result.now ≡ prefill_offer_of (buf_ring self) buffer.old }
        ensures ref_ptr_value { result.ref_ptr ≡ part_from (as_read buffer.entry) (prefill_place (buf_ring self) buffer.old) }
    {
        prefill::prefill_offer_in(&self.starts, &self.cells, self.head, buffer)
    }

    pub fn offer_refusal(self, len: usize) -> Result<(), DmaBufError>
        ensures { result ≡ prefill_offer_refusal_of (buf_ring self) len }
    {
        prefill::prefill_offer_refusal_in(&self.starts, &self.cells, self.head, len)
    }

    pub fn commit(self, len: usize, k: usize) -> Kept<DmaTxStreamBuf, usize>
        ensures { result ≡ kept_of (buf_by self) (prefill_commit_of (buf_ring self) len k) }
    {
        let mut ring = self;
        let answer = prefill::prefill_commit_in(&ring.starts, &ring.cells, &mut ring.head, len, k);
        Kept { ring, answer }
    }

    // Links up all the records (but not in a circle), and marks those that hold prefilled bytes.
    pub fn prepare(self, len: usize) -> Kept<DmaTxStreamBuf, ()>
        ensures { result ≡ kept_of (buf_by self) (prepare_of (buf_ring self) len) }
    {
        let mut ring = self;
        let answer = prepare::prepare_in(&ring.starts, &mut ring.cells, &mut ring.head, len);
        Kept { ring, answer }
    }

    pub fn into_view(self) -> DmaTxStreamBufView
        ensures { result ≡ record { starts = self.starts; cells = self.cells; head = self.head } }
    {
        let starts = self.starts;
        let cells = self.cells;
        DmaTxStreamBufView {
            starts,
            cells,
            head: self.head,
        }
    }

    pub fn from_view(view: DmaTxStreamBufView) -> DmaTxStreamBuf
        ensures { result ≡ record { starts = view.starts; cells = view.cells; head = view.head } }
    {
        let starts = view.starts;
        let cells = view.cells;
        DmaTxStreamBuf {
            starts,
            cells,
            head: view.head,
        }
    }
}
