// The steps with the ring by value, ring in and ring out, over the steps in place.
ghost use Rattle.std.specs.Prelude.{◌≡◌, length};
ghost use Rattle.descriptors.specs.Ring.{ring_of};
ghost use Rattle.device.specs.Device.{receive_of, receive_into, transmit_of, transmit_over};
ghost use Rattle.device.specs.Values.{received_of, sent_of};

use crate::{receive, transmit};
use descriptors::refusal::DmaBufError;
use rx_stream::view::DmaRxStreamBufView;
use tx_stream::view::DmaTxStreamBufView;

// What a step answers, with the ring and the device that it leaves.
#[derive(Clone, Copy, Debug)]
pub struct Step<R, A> {
    pub ring: R,
    pub device: Option<u16>,
    pub answer: Result<A, DmaBufError>,
}

pub fn receive_step(
    ring: DmaRxStreamBufView,
    device: Option<u16>,
    buffer: &mut [u8],
    incoming: &[u8],
    eof: bool,
) -> Step<DmaRxStreamBufView, ()>
    ensures value { result ≡ received_of ring (receive_of (ring_of ring.starts ring.cells ring.head) device (length buffer.old) (length incoming.now) eof) }
    ensures buffer_after { buffer.new ≡ receive_into (ring_of ring.starts ring.cells ring.head) device buffer.old incoming.now }
{
    let mut ring = ring;
    let mut device = device;
    let lent = &mut ring;
    let answer = receive::receive_step_in(
        &lent.starts,
        &mut lent.cells,
        lent.head,
        &mut device,
        buffer,
        incoming,
        eof,
    );
    Step {
        ring,
        device,
        answer,
    }
}

pub fn transmit_step(
    ring: DmaTxStreamBufView,
    device: Option<u16>,
    buffer: &[u8],
    out: &mut [u8],
) -> Step<DmaTxStreamBufView, usize>
    ensures value { result ≡ sent_of ring (transmit_of (ring_of ring.starts ring.cells ring.head) device (length buffer.now) (length out.old)) }
    ensures out_after { out.new ≡ transmit_over (ring_of ring.starts ring.cells ring.head) device buffer.now out.old }
{
    let mut ring = ring;
    let mut device = device;
    let lent = &mut ring;
    let answer = transmit::transmit_step_in(
        &lent.starts,
        &mut lent.cells,
        lent.head,
        &mut device,
        buffer,
        out,
    );
    Step {
        ring,
        device,
        answer,
    }
}
