// The receive ring. `len` is the length of its byte buffer.
ghost use Rattle.std.specs.Prelude.{◌≡◌, true, false, length};
ghost use Rattle.descriptors.specs.Cells.{records_of, cells_now};
ghost use Rattle.descriptors.specs.Ring.{head_of, new_of};
ghost use Rattle.rx_stream.specs.Receive.{prepare_of, available_of, consume_of, pop_of, popped_over};
ghost use Rattle.capi.specs.Words.{head_now, lent_ring};
ghost use Rattle.capi.specs.Answer.{has_room, said_number, said_in, done_number, counted_said, took_said};
ghost use Rattle.capi.specs.Parts.{peek_said, until_eof_said};
ghost use Rattle.capi.specs.New.{new_number, new_head, new_starts, new_cells};

use crate::{answer, flat, fresh, words};
use descriptors::record::TransferDirection;
use rx_stream::in_place;

#[unsafe(no_mangle)]
pub extern "C" fn dma_rx_new(
    head: &mut [u64],
    starts: &mut [u32],
    cells: &mut [u16],
    count: usize,
    len: usize,
) -> u32
    ensures starts_after { starts.new ≡ new_starts head.old starts.old cells.old (new_of TransferDirection.In (records_of starts.old cells.old) count len) }
    ensures cells_after { cells.new ≡ new_cells head.old starts.old cells.old (new_of TransferDirection.In (records_of starts.old cells.old) count len) }
    ensures head_after { head.new ≡ new_head head.old (new_of TransferDirection.In (records_of starts.old cells.old) count len) }
    ensures value { result ≡ new_number head.old (new_of TransferDirection.In (records_of starts.old cells.old) count len) }
{
    fresh::new(TransferDirection::In, head, starts, cells, count, len)
}

// Links up all the records and hands them to the device.
#[unsafe(no_mangle)]
pub extern "C" fn dma_rx_prepare(
    head: &mut [u64],
    starts: &[u32],
    cells: &mut [u16],
    len: usize,
) -> u32
    ensures cells_after { cells.new ≡ cells_now starts.now cells.old (prepare_of (lent_ring true head.old starts.now cells.old) len).ring.descriptors }
    ensures head_after { head.new ≡ head_now true head.old (head_of (prepare_of (lent_ring true head.old starts.now cells.old) len).ring) }
    ensures value { result ≡ done_number (prepare_of (lent_ring true head.old starts.now cells.old) len).answer }
{
    let mut h = words::head_of(head, true);
    let outcome = in_place::prepare_in(starts, cells, &mut h, len);
    words::put_head(head, true, h);
    answer::done(outcome)
}

// answer: the bytes that are available to read.
#[unsafe(no_mangle)]
pub extern "C" fn dma_rx_available_bytes<'a>(
    head: &[u64],
    starts: &'a [u32],
    cells: &'a [u16],
    len: usize,
    answer: &mut [u64],
) -> u32
    ensures value { result ≡ said_number (counted_said (available_of (lent_ring (has_room answer.old) head.now starts.now cells.now) len)) }
    ensures answer_after { answer.new ≡ said_in answer.old (counted_said (available_of (lent_ring (has_room answer.old) head.now starts.now cells.now) len)) }
{
    let ready = answer::has_room(answer);
    let h = words::head_of(head, ready);
    let outcome = in_place::available_in(starts, cells, h, len);
    answer::put(answer, outcome)
}

// answer: the place in the buffer and the length of the part that can be read without a copy.
#[unsafe(no_mangle)]
pub extern "C" fn dma_rx_peek<'a>(
    head: &[u64],
    starts: &'a [u32],
    cells: &'a [u16],
    len: usize,
    answer: &mut [u64],
) -> u32
    ensures value { result ≡ said_number (peek_said false (lent_ring (has_room answer.old) head.now starts.now cells.now) len) }
    ensures answer_after { answer.new ≡ said_in answer.old (peek_said false (lent_ring (has_room answer.old) head.now starts.now cells.now) len) }
{
    let ready = answer::has_room(answer);
    let h = words::head_of(head, ready);
    let said = flat::peeked(starts, cells, h, false, len);
    answer::put(answer, said)
}

// answer: the same up to the first EOF, and 1 where it ends with one.
#[unsafe(no_mangle)]
pub extern "C" fn dma_rx_peek_until_eof<'a>(
    head: &[u64],
    starts: &'a [u32],
    cells: &'a [u16],
    len: usize,
    answer: &mut [u64],
) -> u32
    ensures value { result ≡ said_number (until_eof_said (lent_ring (has_room answer.old) head.now starts.now cells.now) len) }
    ensures answer_after { answer.new ≡ said_in answer.old (until_eof_said (lent_ring (has_room answer.old) head.now starts.now cells.now) len) }
{
    let ready = answer::has_room(answer);
    let h = words::head_of(head, ready);
    let said = flat::until_eof(starts, cells, h, len);
    answer::put(answer, said)
}

// answer: the bytes taken and the records gone back.
#[unsafe(no_mangle)]
pub extern "C" fn dma_rx_consume(
    head: &mut [u64],
    starts: &[u32],
    cells: &mut [u16],
    len: usize,
    k: usize,
    answer: &mut [u64],
) -> u32
    ensures cells_after { cells.new ≡ cells_now starts.now cells.old (consume_of (lent_ring (has_room answer.old) head.old starts.now cells.old) len k).ring.descriptors }
    ensures head_after { head.new ≡ head_now (has_room answer.old) head.old (head_of (consume_of (lent_ring (has_room answer.old) head.old starts.now cells.old) len k).ring) }
    ensures value { result ≡ said_number (took_said (consume_of (lent_ring (has_room answer.old) head.old starts.now cells.old) len k).answer) }
    ensures answer_after { answer.new ≡ said_in answer.old (took_said (consume_of (lent_ring (has_room answer.old) head.old starts.now cells.old) len k).answer) }
{
    let ready = answer::has_room(answer);
    let mut h = words::head_of(head, ready);
    let outcome = in_place::consume_in(starts, cells, &mut h, len, k);
    words::put_head(head, ready, h);
    answer::put(answer, outcome)
}

// answer: the bytes taken.
#[unsafe(no_mangle)]
pub extern "C" fn dma_rx_pop(
    head: &mut [u64],
    starts: &[u32],
    cells: &mut [u16],
    buffer: &[u8],
    destination: &mut [u8],
    answer: &mut [u64],
) -> u32
    ensures destination_after { destination.new ≡ popped_over (lent_ring (has_room answer.old) head.old starts.now cells.old) buffer.now destination.old }
    ensures cells_after { cells.new ≡ cells_now starts.now cells.old (pop_of (lent_ring (has_room answer.old) head.old starts.now cells.old) (length buffer.now) (length destination.old)).ring.descriptors }
    ensures head_after { head.new ≡ head_now (has_room answer.old) head.old (head_of (pop_of (lent_ring (has_room answer.old) head.old starts.now cells.old) (length buffer.now) (length destination.old)).ring) }
    ensures value { result ≡ said_number (counted_said (pop_of (lent_ring (has_room answer.old) head.old starts.now cells.old) (length buffer.now) (length destination.old)).answer) }
    ensures answer_after { answer.new ≡ said_in answer.old (counted_said (pop_of (lent_ring (has_room answer.old) head.old starts.now cells.old) (length buffer.now) (length destination.old)).answer) }
{
    let ready = answer::has_room(answer);
    let mut h = words::head_of(head, ready);
    let outcome = in_place::pop_in(starts, cells, &mut h, buffer, destination);
    words::put_head(head, ready, h);
    answer::put(answer, outcome)
}
