// The output: text behind text, written out when it is asked for. An output that is full takes no more.
ghost use Rattle.std.specs.Prelude.{◌≡◌, ◌≤◌, ◌++◌};
ghost use Rattle.bench.specs.declared.output.TheConstants.{SIZE};

use std::io::{Stdout, Write};
use std::{fmt, io};

// Half of it holds the longest answer, a peek of 262,080 bytes.
const SIZE: usize = 1048576;

#[derive(Drop)]
pub struct Output {
    to: Stdout,
    bytes: [u8; SIZE],
    end: usize,
    ghost inside: { end ≤ SIZE },
}

impl Output {
    pub fn new(to: Stdout) -> Output {
        Output {
            to,
            bytes: [0; SIZE],
            end: 0,
        }
    }

    // A line of an answer.
    pub fn line<D: fmt::Display + Drop>(&mut self, answer: D) {
        let _ = fmt::Write::writeln(self, answer);
    }

    pub fn flush_half(&mut self) -> io::Result<()> {
        if self.end < SIZE / 2 {
            return Ok(());
        }
        self.flush()
    }

    pub fn flush(&mut self) -> io::Result<()> {
        let end = self.end;
        self.end = 0;
        self.to.write_all(&self.bytes[..end])
    }
}

impl fmt::Write for Output {
    ghost use Rattle.bench.specs.Output.{held};

    ghost write_str_gives = { λ before text after. held after ≡ held before ++ text };

    fn write_str(&mut self, text: &str) -> fmt::Result {
        if SIZE - self.end < text.len() {
            return Err(fmt::Error);
        }
        let end = self.end + text.len();
        self.bytes[self.end..end].copy_from_slice(text.as_bytes());
        self.end = end;
        Ok(())
    }
}
