// The transmit ring. `len` is the length of its byte buffer.
ghost use Rattle.std.specs.Prelude.{◌≡◌, true, length};
ghost use Rattle.descriptors.specs.Cells.{records_of, cells_now};
ghost use Rattle.descriptors.specs.Ring.{head_of, new_of};
ghost use Rattle.tx_stream.specs.Transmit.{prefill_of, prefill_into, prefill_commit_of, prepare_of, available_of, push_of, push_into, commit_of, advance_of};
ghost use Rattle.capi.specs.Words.{head_now, lent_ring};
ghost use Rattle.capi.specs.Answer.{has_room, said_number, said_in, done_number, counted_said};
ghost use Rattle.capi.specs.Parts.{offer_said, prefill_offer_said};
ghost use Rattle.capi.specs.New.{new_number, new_head, new_starts, new_cells};

use crate::{answer, fresh, offer, words};
use descriptors::record::TransferDirection;
use tx_stream::{in_place, prefill, prepare};

#[unsafe(no_mangle)]
pub extern "C" fn dma_tx_new(
    head: &mut [u64],
    starts: &mut [u32],
    cells: &mut [u16],
    count: usize,
    len: usize,
) -> u32
    ensures starts_after { starts.new ≡ new_starts head.old starts.old cells.old (new_of TransferDirection.Out (records_of starts.old cells.old) count len) }
    ensures cells_after { cells.new ≡ new_cells head.old starts.old cells.old (new_of TransferDirection.Out (records_of starts.old cells.old) count len) }
    ensures head_after { head.new ≡ new_head head.old (new_of TransferDirection.Out (records_of starts.old cells.old) count len) }
    ensures value { result ≡ new_number head.old (new_of TransferDirection.Out (records_of starts.old cells.old) count len) }
{
    fresh::new(TransferDirection::Out, head, starts, cells, count, len)
}

// Before `prepare`. answer: the bytes accepted.
#[unsafe(no_mangle)]
pub extern "C" fn dma_tx_prefill<'a>(
    head: &mut [u64],
    starts: &'a [u32],
    cells: &'a [u16],
    buffer: &mut [u8],
    data: &[u8],
    answer: &mut [u64],
) -> u32
    ensures buffer_after { buffer.new ≡ prefill_into (lent_ring (has_room answer.old) head.old starts.now cells.now) buffer.old «data».now }
    ensures head_after { head.new ≡ head_now (has_room answer.old) head.old (head_of (prefill_of (lent_ring (has_room answer.old) head.old starts.now cells.now) (length buffer.old) (length «data».now)).ring) }
    ensures value { result ≡ said_number (counted_said (prefill_of (lent_ring (has_room answer.old) head.old starts.now cells.now) (length buffer.old) (length «data».now)).answer) }
    ensures answer_after { answer.new ≡ said_in answer.old (counted_said (prefill_of (lent_ring (has_room answer.old) head.old starts.now cells.now) (length buffer.old) (length «data».now)).answer) }
{
    let ready = answer::has_room(answer);
    let mut h = words::head_of(head, ready);
    let outcome = prefill::prefill_in(starts, cells, &mut h, buffer, data);
    words::put_head(head, ready, h);
    answer::put(answer, outcome)
}

// Before `prepare`. answer: the place and the length of the part on offer.
#[unsafe(no_mangle)]
pub extern "C" fn dma_tx_offer_prefill<'a>(
    head: &[u64],
    starts: &'a [u32],
    cells: &'a [u16],
    len: usize,
    answer: &mut [u64],
) -> u32
    ensures value { result ≡ said_number (prefill_offer_said (lent_ring (has_room answer.old) head.now starts.now cells.now) len) }
    ensures answer_after { answer.new ≡ said_in answer.old (prefill_offer_said (lent_ring (has_room answer.old) head.now starts.now cells.now) len) }
{
    let ready = answer::has_room(answer);
    let h = words::head_of(head, ready);
    let said = offer::prefill_offered(starts, cells, h, len);
    answer::put(answer, said)
}

// Before `prepare`. answer: the bytes accepted.
#[unsafe(no_mangle)]
pub extern "C" fn dma_tx_commit_prefill<'a>(
    head: &mut [u64],
    starts: &'a [u32],
    cells: &'a [u16],
    len: usize,
    k: usize,
    answer: &mut [u64],
) -> u32
    ensures head_after { head.new ≡ head_now (has_room answer.old) head.old (head_of (prefill_commit_of (lent_ring (has_room answer.old) head.old starts.now cells.now) len k).ring) }
    ensures value { result ≡ said_number (counted_said (prefill_commit_of (lent_ring (has_room answer.old) head.old starts.now cells.now) len k).answer) }
    ensures answer_after { answer.new ≡ said_in answer.old (counted_said (prefill_commit_of (lent_ring (has_room answer.old) head.old starts.now cells.now) len k).answer) }
{
    let ready = answer::has_room(answer);
    let mut h = words::head_of(head, ready);
    let outcome = prefill::prefill_commit_in(starts, cells, &mut h, len, k);
    words::put_head(head, ready, h);
    answer::put(answer, outcome)
}

// Links up all the records, and hands those with prefilled bytes to the device.
#[unsafe(no_mangle)]
pub extern "C" fn dma_tx_prepare(
    head: &mut [u64],
    starts: &[u32],
    cells: &mut [u16],
    len: usize,
) -> u32
    ensures cells_after { cells.new ≡ cells_now starts.now cells.old (prepare_of (lent_ring true head.old starts.now cells.old) len).ring.descriptors }
    ensures head_after { head.new ≡ head_now true head.old (head_of (prepare_of (lent_ring true head.old starts.now cells.old) len).ring) }
    ensures value { result ≡ done_number (prepare_of (lent_ring true head.old starts.now cells.old) len).answer }
{
    let mut h = words::head_of(head, true);
    let outcome = prepare::prepare_in(starts, cells, &mut h, len);
    words::put_head(head, true, h);
    answer::done(outcome)
}

// answer: the bytes that can be written.
#[unsafe(no_mangle)]
pub extern "C" fn dma_tx_available_bytes<'a>(
    head: &[u64],
    starts: &'a [u32],
    cells: &'a [u16],
    len: usize,
    answer: &mut [u64],
) -> u32
    ensures value { result ≡ said_number (counted_said (available_of (lent_ring (has_room answer.old) head.now starts.now cells.now) len)) }
    ensures answer_after { answer.new ≡ said_in answer.old (counted_said (available_of (lent_ring (has_room answer.old) head.now starts.now cells.now) len)) }
{
    let ready = answer::has_room(answer);
    let h = words::head_of(head, ready);
    let outcome = in_place::available_in(starts, cells, h, len);
    answer::put(answer, outcome)
}

// answer: the bytes accepted.
#[unsafe(no_mangle)]
pub extern "C" fn dma_tx_push(
    head: &mut [u64],
    starts: &[u32],
    cells: &mut [u16],
    buffer: &mut [u8],
    data: &[u8],
    answer: &mut [u64],
) -> u32
    ensures buffer_after { buffer.new ≡ push_into (lent_ring (has_room answer.old) head.old starts.now cells.old) buffer.old «data».now }
    ensures cells_after { cells.new ≡ cells_now starts.now cells.old (push_of (lent_ring (has_room answer.old) head.old starts.now cells.old) (length buffer.old) (length «data».now)).ring.descriptors }
    ensures head_after { head.new ≡ head_now (has_room answer.old) head.old (head_of (push_of (lent_ring (has_room answer.old) head.old starts.now cells.old) (length buffer.old) (length «data».now)).ring) }
    ensures value { result ≡ said_number (counted_said (push_of (lent_ring (has_room answer.old) head.old starts.now cells.old) (length buffer.old) (length «data».now)).answer) }
    ensures answer_after { answer.new ≡ said_in answer.old (counted_said (push_of (lent_ring (has_room answer.old) head.old starts.now cells.old) (length buffer.old) (length «data».now)).answer) }
{
    let ready = answer::has_room(answer);
    let mut h = words::head_of(head, ready);
    let outcome = in_place::push_in(starts, cells, &mut h, buffer, data);
    words::put_head(head, ready, h);
    answer::put(answer, outcome)
}

// answer: the place and the length of the part on offer.
#[unsafe(no_mangle)]
pub extern "C" fn dma_tx_offer<'a>(
    head: &[u64],
    starts: &'a [u32],
    cells: &'a [u16],
    len: usize,
    answer: &mut [u64],
) -> u32
    ensures value { result ≡ said_number (offer_said (lent_ring (has_room answer.old) head.now starts.now cells.now) len) }
    ensures answer_after { answer.new ≡ said_in answer.old (offer_said (lent_ring (has_room answer.old) head.now starts.now cells.now) len) }
{
    let ready = answer::has_room(answer);
    let h = words::head_of(head, ready);
    let said = offer::offered(starts, cells, h, len);
    answer::put(answer, said)
}

// answer: the bytes accepted.
#[unsafe(no_mangle)]
pub extern "C" fn dma_tx_commit(
    head: &mut [u64],
    starts: &[u32],
    cells: &mut [u16],
    len: usize,
    k: usize,
    answer: &mut [u64],
) -> u32
    ensures cells_after { cells.new ≡ cells_now starts.now cells.old (commit_of (lent_ring (has_room answer.old) head.old starts.now cells.old) len k).ring.descriptors }
    ensures head_after { head.new ≡ head_now (has_room answer.old) head.old (head_of (commit_of (lent_ring (has_room answer.old) head.old starts.now cells.old) len k).ring) }
    ensures value { result ≡ said_number (counted_said (commit_of (lent_ring (has_room answer.old) head.old starts.now cells.old) len k).answer) }
    ensures answer_after { answer.new ≡ said_in answer.old (counted_said (commit_of (lent_ring (has_room answer.old) head.old starts.now cells.old) len k).answer) }
{
    let ready = answer::has_room(answer);
    let mut h = words::head_of(head, ready);
    let outcome = in_place::commit_in(starts, cells, &mut h, len, k);
    words::put_head(head, ready, h);
    answer::put(answer, outcome)
}

// answer: the bytes accepted.
#[unsafe(no_mangle)]
pub extern "C" fn dma_tx_advance(
    head: &mut [u64],
    starts: &[u32],
    cells: &mut [u16],
    len: usize,
    k: usize,
    answer: &mut [u64],
) -> u32
    ensures cells_after { cells.new ≡ cells_now starts.now cells.old (advance_of (lent_ring (has_room answer.old) head.old starts.now cells.old) len k).ring.descriptors }
    ensures head_after { head.new ≡ head_now (has_room answer.old) head.old (head_of (advance_of (lent_ring (has_room answer.old) head.old starts.now cells.old) len k).ring) }
    ensures value { result ≡ said_number (counted_said (advance_of (lent_ring (has_room answer.old) head.old starts.now cells.old) len k).answer) }
    ensures answer_after { answer.new ≡ said_in answer.old (counted_said (advance_of (lent_ring (has_room answer.old) head.old starts.now cells.old) len k).answer) }
{
    let ready = answer::has_room(answer);
    let mut h = words::head_of(head, ready);
    let outcome = in_place::advance_in(starts, cells, &mut h, len, k);
    words::put_head(head, ready, h);
    answer::put(answer, outcome)
}
