// The input, a block at a time, and its lines.
ghost use Rattle.std.specs.Prelude.{◌≡◌, ◌≢◌, ℕ, ◌<◌, ◌≤◌, length, slice_index, IfSome, IfNone};
ghost use Rattle.bench.specs.declared.input.TheConstants.{SIZE};

use crate::command::LINE;
use crate::console::Console;
use crate::fault::Fault;
use crate::why::Why;
use std::io::Read;
use std::mem;

// Bytes of a block.
const SIZE: usize = 65536;

// Where the reading stands: the block, how much of it is kept of a line that has no end yet, and whether that line is passed over.
#[derive(Drop)]
pub struct Input {
    block: [u8; SIZE],
    kept: usize,
    passing: bool,
    ghost inside: { kept ≤ SIZE },
}

// The first place that holds the byte.
fn find(bytes: &[u8], byte: u8) -> Option<usize>
    ensures found { IfSome result (λ i. (i < length bytes.now) × (slice_index bytes.now i ≡ byte)) }
    ensures before { IfSome result (λ i. (k : ℕ) → k < i → slice_index bytes.now k ≢ byte) }
    ensures absent { IfNone result ((k : ℕ) → k < length bytes.now → slice_index bytes.now k ≢ byte) }
{
    bytes.iter().position(|b| *b == byte)
}

// A line without its return.
fn trimmed(line: &[u8]) -> &[u8] {
    line.strip_suffix(b"\r").unwrap_or(line)
}

impl Input {
    pub fn new() -> Input {
        Input {
            block: [0; SIZE],
            kept: 0,
            passing: false,
        }
    }

    // One block of the input; whether there may be more.
    pub fn step<R: Read>(&mut self, source: &mut R, console: &mut Console) -> bool {
        let got = source.read(&mut self.block[self.kept..]).unwrap_or(0);
        if got == 0 {
            console.line(trimmed(&self.block[..self.kept]));
            let _ = console.bench.out.flush();
            return false;
        }
        let have = self.kept + got;
        let left = self.lines(have, console);
        self.keep(have, left, console);
        console.bench.out.flush().is_ok()
    }

    // The lines that end in the first `have` bytes of the block; how many bytes are left behind them.
    fn lines(&mut self, have: usize, console: &mut Console) -> usize
        requires { have ≤ SIZE }
        ensures { result ≤ have }
    {
        let mut rest = &self.block[..have];
        while let Some(end) = find(rest, b'\n') {
            let (line, behind) = rest.split_at(end);
            if !mem::take(&mut self.passing) {
                console.line(trimmed(line));
                let _ = console.bench.out.flush_half();
            }
            rest = &behind[1..];
        }
        rest.len()
    }

    // What is left of the block goes to its front. A line that is too long already is passed over.
    fn keep(&mut self, have: usize, left: usize, console: &mut Console)
        requires { (left ≤ have) × (have ≤ SIZE) }
    {
        self.block.copy_within(have - left..have, 0);
        if !self.passing && LINE + 1 < left {
            console.bench.out.line(Fault::Wrong(Why::TooLong));
            self.passing = true;
        }
        self.kept = if self.passing { 0 } else { left };
    }
}
