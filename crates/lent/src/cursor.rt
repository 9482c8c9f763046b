// A consume from a lent cursor: the ring is by value, and its own cursor is not read.
ghost use Rattle.std.specs.Prelude.{◌≡◌};
ghost use Rattle.lent.specs.Cursor.{consume_from};

use descriptors::ring::{Head, Kept};
use rx_stream::Took;
use rx_stream::view::DmaRxStreamBufView;

// The receive cursor by itself: a record's number and an offset in it.
#[derive(Clone, Copy, Debug, PartialEq, Eq)]
pub struct Cursor {
    pub record: usize,
    pub offset: usize,
}

// What a consume from a cursor leaves: the cursor and the answer.
#[derive(Clone, Copy, Debug)]
pub struct Stepped {
    pub cursor: Cursor,
    pub done: Kept<DmaRxStreamBufView, Took>,
}

// A consume by the ring with its cursor at `at`. Refused, it leaves that cursor and the ring as it came.
#[tactic(auto, unfolding(crate::specs::Cursor::consume_from))]
fn consume_from(at: Cursor, ring: DmaRxStreamBufView, len: usize, k: usize) -> Stepped
    ensures { result ≡ consume_from ring at len k }
{
    let head = Head {
        descriptor_idx: at.record,
        descriptor_offset: at.offset,
        ..ring.head
    };
    let standing = DmaRxStreamBufView { head, ..ring };
    let done = standing.consume(len, k);
    match done.answer {
        Ok(_) => {
            let now = done.ring.head;
            let cursor = Cursor {
                record: now.descriptor_idx,
                offset: now.descriptor_offset,
            };
            Stepped { cursor, done }
        }
        Err(e) => {
            let answer = Err(e);
            Stepped {
                cursor: at,
                done: Kept { ring, answer },
            }
        }
    }
}

// Takes k bytes from the lent cursor on, and leaves the cursor where the walk ends: after a refusal, where it was.
pub fn consume_at(
    c: &mut Cursor,
    ring: DmaRxStreamBufView,
    len: usize,
    k: usize,
) -> Kept<DmaRxStreamBufView, Took>
    ensures { (result ≡ (consume_from ring c.old len k).done) × (c.new ≡ (consume_from ring c.old len k).cursor) }
{
    let step = consume_from(*c, ring, len, k);
    *c = step.cursor;
    step.done
}

// A consume from a cursor by value: it is lent for the call.
pub fn consume_with(at: Cursor, ring: DmaRxStreamBufView, len: usize, k: usize) -> Stepped
    ensures { result ≡ consume_from ring at len k }
{
    let mut cursor = at;
    let done = consume_at(&mut cursor, ring, len, k);
    Stepped { cursor, done }
}
