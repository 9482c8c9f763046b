// The bench console: commands from standard input, or from the file that the first argument names, each answered with a line.
#![tactic(auto)]

mod why; // why.rt: why a line is no command
mod word; // word.rt: the words of a line
mod digit; // digit.rt: a digit's value and a value's digit
mod number; // number.rt: a number as it is written
mod pairs; // pairs.rt: bytes as pairs of hex digits
mod argument; // argument.rt: the arguments of a command
mod command; // command.rt: the commands, and how a line spells one
mod fault; // fault.rt: why a line is not answered as it asks
mod show; // show.rt: the state, as commands
mod pieces; // pieces.rt: the list of pieces
mod bench; // bench.rt: what the commands work on
mod receive; // receive.rt: commands on a receive ring
mod transmit; // transmit.rt: commands on a transmit ring
mod output; // output.rt: the output
mod console; // console.rt: a line carried out and answered
mod input; // input.rt: the input, a block at a time

use bench::{BUFFER, Bench, DATA};
use console::{ARGUMENT, Console};
use descriptors::cells::CELLS;
use descriptors::record::LIMIT;
use input::Input;
use output::Output;
use std::env::FillError;
use std::fmt::Display;
use std::fs::File;
use std::io::{Read, Stdout};
use std::rt::Env;

// The most bytes of a file's name.
const PATH: usize = 4096;

// All memory of the console lies here. A proved loop has to end, and nothing says that the input does: so the blocks are counted, up
// to a number that no run comes to.
#[inline(never)]
fn serve<R: Read>(source: &mut R, to: Stdout) {
    let mut input = Input::new();
    let mut console = Console {
        argument: [0; ARGUMENT],
        bench: Bench {
            starts: [0; LIMIT],
            cells: [0; CELLS],
            buffer: [0; BUFFER],
            data: [0; DATA],
            ring: None,
            out: Output::new(to),
        },
    };
    for _ in 0..u64::MAX {
        if !input.step(source, &mut console) {
            return;
        }
    }
}

// What stands on standard error where the commands cannot be read.
fn failed(rt: &HostRuntime, name: &str, why: impl Display + Drop) {
    let _ = eprintln!(rt; "{name}: {why}");
}

// The commands of a file.
fn replay(rt: &HostRuntime, path: &str) {
    match File::open(rt, path) {
        Err(why) => failed(rt, path, why),
        Ok(mut file) => serve(&mut file, rt.stdout()),
    }
}

fn main(rt: HostRuntime) {
    let mut path = [0u8; PATH];
    match rt.arg(1, &mut path) {
        Err(FillError::NotPresent) => serve(&mut rt.stdin(), rt.stdout()),
        Err(FillError::TooLong) => failed(&rt, "file", "File name too long"),
        Ok(length) => match str::from_utf8(&path[..length]) {
            Err(why) => failed(&rt, "file", why),
            Ok(text) => replay(&rt, text),
        },
    }
}
