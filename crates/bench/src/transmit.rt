// Commands on a transmit ring.
use crate::bench;
use crate::bench::{BUFFER, Bench, DATA};
use crate::command::OfTransmit;
use crate::fault::Fault;
use crate::pairs::Pairs;
use descriptors::record::TransferDirection;
use device::transmit::transmit_step_in;
use tx_stream::in_place;
use tx_stream::prefill::{
    prefill_commit_in, prefill_in, prefill_offer_in, prefill_offer_refusal_in,
};

impl Bench {
    pub fn transmit(&mut self, command: OfTransmit) -> Result<(), Fault> {
        let ring = bench::made_in(&mut self.ring, TransferDirection::Out)?;
        let len = ring.len.min(BUFFER);
        let whole = &mut self.buffer[..];
        let buffer = &mut whole[..len];
        let (s, w, h) = (&self.starts, &mut self.cells, &mut ring.head);
        let (word, k) = match command {
            OfTransmit::Prefill(bytes) => ("accepted", prefill_in(s, w, h, buffer, bytes)?),
            OfTransmit::CommitPrefill(k) => ("accepted", prefill_commit_in(s, w, h, len, k)?),
            OfTransmit::Push(bytes) => ("accepted", in_place::push_in(s, w, h, buffer, bytes)?),
            OfTransmit::Commit(k) => ("accepted", in_place::commit_in(s, w, h, len, k)?),
            OfTransmit::Advance(k) => ("accepted", in_place::advance_in(s, w, h, len, k)?),
            OfTransmit::OfferPrefill => {
                prefill_offer_refusal_in(s, w, *h, len)?;
                ("offered", prefill_offer_in(s, w, *h, buffer).len())
            }
            OfTransmit::Offer => {
                in_place::offer_refusal_in(s, w, *h, len)?;
                ("offered", in_place::offer_in(s, w, *h, buffer).len())
            }
            OfTransmit::Prefilled(k) => {
                h.pre_filled = k;
                self.out.line("ok");
                return Ok(());
            }
            OfTransmit::Send(k) => {
                let k = k.min(DATA);
                let data = &mut self.data[..];
                let output = &mut data[..k];
                let sent = transmit_step_in(s, w, *h, &mut ring.device, buffer, output)?;
                let bytes = Pairs(&output[..sent.min(k)]);
                self.out.line(format_args!("sent {bytes}"));
                return Ok(());
            }
        };
        self.out.line(format_args!("{word} {k}"));
        Ok(())
    }
}
