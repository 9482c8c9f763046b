// The console: each line is read, carried out and answered.
use crate::bench::Bench;
use crate::command;
use crate::command::LINE;
use crate::fault::Fault;

// Bytes of an argument: no line spells more.
pub const ARGUMENT: usize = LINE / 2;

// The bytes of an argument, and what the commands work on.
#[derive(Drop)]
pub struct Console {
    pub argument: [u8; ARGUMENT],
    pub bench: Bench,
}

impl Console {
    fn answer(&mut self, line: &[u8]) -> Result<(), Fault> {
        match command::read(line, &mut self.argument)? {
            Some(command) => self.bench.run(command),
            None => Ok(()),
        }
    }

    pub fn line(&mut self, line: &[u8]) {
        if let Err(fault) = self.answer(line) {
            self.bench.out.line(fault);
        }
    }
}
