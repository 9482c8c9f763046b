// The ring before and after a transfer.
ghost use Rattle.std.specs.Prelude.{◌≡◌, length};
ghost use Rattle.descriptors.specs.Cells.{records_of};
ghost use Rattle.descriptors.specs.Ring.{ring_of, new_of, kept_of};
ghost use Rattle.rx_stream.specs.Receive.{prepare_of};
ghost use Rattle.rx_stream.specs.Faces.{buf_new, buf_now, view_of, buf_of, words_of};

use crate::in_place;
use crate::view::DmaRxStreamBufView;
use descriptors::cells::{CELLS, Words};
use descriptors::record::{LIMIT, TransferDirection};
use descriptors::ring;
use descriptors::ring::{Head, Kept};

// Four types of one shape, two in each direction: the names and the states are the Rust's.
#[derive(Clone, Copy, Debug, PartialEq, Eq)]
pub struct DmaRxStreamBuf {
    pub starts: [u32; LIMIT],
    pub cells: [u16; CELLS],
    pub head: Head,
}

impl DmaRxStreamBuf {
    // Splits the buffer evenly over the first n records that the words show. After a refusal the words are as they were lent.
    pub fn new(
        mut starts: [u32; LIMIT],
        mut cells: [u16; CELLS],
        n: usize,
        buffer: &[u8],
    ) -> Kept<DmaRxStreamBuf, ()>
        ensures { result ≡ kept_of (buf_new starts cells) (new_of TransferDirection.In (records_of starts cells) n (length buffer.now)) }
    {
        let made = ring::new_in(
            TransferDirection::In,
            &mut starts,
            &mut cells,
            n,
            buffer.len(),
        );
        Kept {
            ring: DmaRxStreamBuf {
                starts,
                cells,
                head: made.ring,
            },
            answer: made.answer,
        }
    }

    // Consumes the buf, returning the words of its records. Here and below an array goes on by a variable: the borrow checker covers
    // none that goes straight from field to field.
    pub fn split(self) -> Words
        ensures { result ≡ words_of self }
    {
        let starts = self.starts;
        let cells = self.cells;
        Words { starts, cells }
    }

    // Links up all the records, but not in a circle, and hands them to the device.
    pub fn prepare(mut self, len: usize) -> Kept<DmaRxStreamBuf, ()>
        ensures { result ≡ kept_of (buf_now self) (prepare_of (ring_of self.starts self.cells self.head) len) }
    {
        let answer = in_place::prepare_in(&self.starts, &mut self.cells, &mut self.head, len);
        Kept { ring: self, answer }
    }

    // The view of a transfer that starts: its cursor is the first record's start.
    pub fn into_view(self) -> DmaRxStreamBufView
        ensures { result ≡ view_of self }
    {
        let starts = self.starts;
        let cells = self.cells;
        DmaRxStreamBufView {
            starts,
            cells,
            head: Head {
                descriptor_idx: 0,
                descriptor_offset: 0,
                ..self.head
            },
        }
    }

    pub fn from_view(view: DmaRxStreamBufView) -> Self
        ensures { result ≡ buf_of view }
    {
        let starts = view.starts;
        let cells = view.cells;
        DmaRxStreamBuf {
            starts,
            cells,
            head: view.head,
        }
    }
}
