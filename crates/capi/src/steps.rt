// The device's steps. `device` is one word: 0 stopped, i + 1 on record i.
ghost use Rattle.std.specs.Prelude.{◌≡◌, length};
ghost use Rattle.descriptors.specs.Cells.{eof_of, cells_now};
ghost use Rattle.device.specs.Device.{receive_of, receive_into, transmit_of, transmit_over};
ghost use Rattle.capi.specs.Words.{lent_ring, next_in, place_now};
ghost use Rattle.capi.specs.Answer.{said_number, said_in, done_said, counted_said};
ghost use Rattle.capi.specs.Steps.{step_ready};

use crate::{answer, words};
use device::{receive, transmit};

#[tactic(auto, unfolding(crate::specs::Steps::step_ready))]
fn step_ready<'a>(answer: &'a [u64], device: &'a [u64], eof: u32) -> bool
    ensures { result ≡ step_ready answer.now device.now eof }
{
    eof <= 1 && answer::has_room(answer) && words::is_place(device)
}

// A mark is a number in C: the C interface.
fn is_eof(eof: u32) -> bool
    ensures { result ≡ eof_of eof }
{
    eof != 0
}

// A receive step; eof is 0 or 1. answer: the bytes put in.
#[unsafe(no_mangle)]
pub extern "C" fn dma_rx_step(
    head: &[u64],
    starts: &[u32],
    cells: &mut [u16],
    buffer: &mut [u8],
    device: &mut [u64],
    incoming: &[u8],
    eof: u32,
    answer: &mut [u64],
) -> u32
    ensures buffer_after { buffer.new ≡ receive_into (lent_ring (step_ready answer.old device.old eof) head.now starts.now cells.old) (next_in (step_ready answer.old device.old eof) device.old) buffer.old incoming.now }
    ensures cells_after { cells.new ≡ cells_now starts.now cells.old (receive_of (lent_ring (step_ready answer.old device.old eof) head.now starts.now cells.old) (next_in (step_ready answer.old device.old eof) device.old) (length buffer.old) (length incoming.now) (eof_of eof)).ring.descriptors }
    ensures device_after { device.new ≡ place_now (step_ready answer.old device.old eof) device.old (receive_of (lent_ring (step_ready answer.old device.old eof) head.now starts.now cells.old) (next_in (step_ready answer.old device.old eof) device.old) (length buffer.old) (length incoming.now) (eof_of eof)).device }
    ensures value { result ≡ said_number (done_said (length incoming.now) (receive_of (lent_ring (step_ready answer.old device.old eof) head.now starts.now cells.old) (next_in (step_ready answer.old device.old eof) device.old) (length buffer.old) (length incoming.now) (eof_of eof)).answer) }
    ensures answer_after { answer.new ≡ said_in answer.old (done_said (length incoming.now) (receive_of (lent_ring (step_ready answer.old device.old eof) head.now starts.now cells.old) (next_in (step_ready answer.old device.old eof) device.old) (length buffer.old) (length incoming.now) (eof_of eof)).answer) }
{
    let ready = step_ready(answer, device, eof);
    let h = words::head_of(head, ready);
    let mut place = words::place_of(device, ready);
    let outcome = receive::receive_step_in(
        starts,
        cells,
        h,
        &mut place,
        buffer,
        incoming,
        is_eof(eof),
    );
    words::put_place(device, ready, place);
    answer::put(answer, outcome.and(Ok(incoming.len())))
}

// A transmit step. answer: the bytes sent.
#[unsafe(no_mangle)]
pub extern "C" fn dma_tx_step(
    head: &[u64],
    starts: &[u32],
    cells: &mut [u16],
    buffer: &[u8],
    device: &mut [u64],
    output: &mut [u8],
    answer: &mut [u64],
) -> u32
    ensures output_after { output.new ≡ transmit_over (lent_ring (step_ready answer.old device.old 0) head.now starts.now cells.old) (next_in (step_ready answer.old device.old 0) device.old) buffer.now output.old }
    ensures cells_after { cells.new ≡ cells_now starts.now cells.old (transmit_of (lent_ring (step_ready answer.old device.old 0) head.now starts.now cells.old) (next_in (step_ready answer.old device.old 0) device.old) (length buffer.now) (length output.old)).ring.descriptors }
    ensures device_after { device.new ≡ place_now (step_ready answer.old device.old 0) device.old (transmit_of (lent_ring (step_ready answer.old device.old 0) head.now starts.now cells.old) (next_in (step_ready answer.old device.old 0) device.old) (length buffer.now) (length output.old)).device }
    ensures value { result ≡ said_number (counted_said (transmit_of (lent_ring (step_ready answer.old device.old 0) head.now starts.now cells.old) (next_in (step_ready answer.old device.old 0) device.old) (length buffer.now) (length output.old)).answer) }
    ensures answer_after { answer.new ≡ said_in answer.old (counted_said (transmit_of (lent_ring (step_ready answer.old device.old 0) head.now starts.now cells.old) (next_in (step_ready answer.old device.old 0) device.old) (length buffer.now) (length output.old)).answer) }
{
    let ready = step_ready(answer, device, 0);
    let h = words::head_of(head, ready);
    let mut place = words::place_of(device, ready);
    let outcome = transmit::transmit_step_in(starts, cells, h, &mut place, buffer, output);
    words::put_place(device, ready, place);
    answer::put(answer, outcome)
}
