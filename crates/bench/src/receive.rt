// Commands on a receive ring.
use crate::bench;
use crate::bench::{BUFFER, Bench, DATA};
use crate::command::OfReceive;
use crate::fault::Fault;
use crate::pairs::Pairs;
use descriptors::record::TransferDirection;
use device::receive;
use rx_stream::{Took, in_place};

impl Bench {
    pub fn receive(&mut self, command: OfReceive) -> Result<(), Fault> {
        let ring = bench::made_in(&mut self.ring, TransferDirection::In)?;
        let len = ring.len.min(BUFFER);
        let whole = &mut self.buffer[..];
        let buffer = &mut whole[..len];
        let (s, w, h) = (&self.starts, &mut self.cells, &mut ring.head);
        match command {
            OfReceive::Peek => {
                in_place::peek_refusal_in(s, w, *h, len)?;
                let bytes = Pairs(in_place::peek_in(s, w, *h, buffer));
                self.out.line(format_args!("peek {bytes}"));
            }
            OfReceive::PeekUntilEof => {
                let eof = in_place::peek_eof_in(s, w, *h, len)?;
                let bytes = Pairs(in_place::peek_until_eof_in(s, w, *h, buffer));
                let answer = if eof { "yes" } else { "no" };
                self.out.line(format_args!("peek {bytes} {answer}"));
            }
            OfReceive::Consume(k) => {
                let Took { taken, back } = in_place::consume_in(s, w, h, len, k)?;
                self.out.line(format_args!("taken {taken} back {back}"));
            }
            OfReceive::Pop(k) => {
                let k = k.min(DATA);
                let data = &mut self.data[..];
                let dst = &mut data[..k];
                let taken = in_place::pop_in(s, w, h, buffer, dst)?;
                let bytes = Pairs(&dst[..taken.min(k)]);
                self.out.line(format_args!("popped {bytes}"));
            }
            OfReceive::Fill { bytes, eof } => {
                receive::receive_step_in(s, w, *h, &mut ring.device, buffer, bytes, eof)?;
                let k = bytes.len();
                self.out.line(format_args!("filled {k}"));
            }
        }
        Ok(())
    }
}
