// Document 01's twelve rows, run: what the code answers to each, and whether that is what the row says.
#![tactic(auto)]

ghost use Rattle.std.specs.Prelude.{◌≡◌, ◌<◌};
ghost use Rattle.descriptors.specs.Split.{split_of};
ghost use Rattle.psram.specs.Cut.{cut_of};
ghost use Rattle.table.specs.Rows.{count, row_at, same_as, answer_of, split_answer, cut_answer};

use descriptors::refusal::DmaBufError;
use descriptors::split;
use psram::chip::Chip;
use psram::cut;
use std::{fmt, io};

// What a row asks for.
#[derive(Clone, Copy, Debug, PartialEq, Eq)]
pub enum Asked {
    Split,
    Cut(Chip),
}

impl fmt::Display for Asked {
    fn fmt<W: fmt::Write>(&self, f: &mut fmt::Formatter<W>) -> fmt::Result {
        match self {
            Asked::Split => write!(f, "split"),
            Asked::Cut(Chip::Ordinary) => write!(f, "cut ordinary"),
            Asked::Cut(Chip::S2) => write!(f, "cut s2"),
        }
    }
}

// What is asked, of what, and the answer: the size of the first records and of the last, or head, middle and tail.
#[derive(Clone, Copy, Debug, PartialEq, Eq)]
pub struct Row {
    pub asked: Asked,
    pub a: u32,
    pub b: u32,
    pub answer: Result<[usize; 3], DmaBufError>,
}

const COUNT: usize = 12;

// A row on a line: what is asked of what, and the answer.
macro_rules! said {
    ($asked:expr, $a:expr, $b:expr => $answer:expr) => {
        Row {
            asked: $asked,
            a: $a,
            b: $b,
            answer: $answer,
        }
    };
}

const ROWS: [Row; COUNT] = [
    said!(Asked::Split, 4, 3 => Err(DmaBufError::InvalidChunkSize)),
    said!(Asked::Split, 4, 4 => Ok([1, 1, 0])),
    said!(Asked::Split, 4, 11 => Err(DmaBufError::UnevenSplit)),
    said!(Asked::Split, 4, 14 => Ok([3, 5, 0])),
    said!(Asked::Split, 4, 15 => Err(DmaBufError::UnevenSplit)),
    said!(Asked::Split, 4, 16377 => Ok([4094, 4095, 0])),
    said!(Asked::Split, 4, 16378 => Err(DmaBufError::InsufficientDescriptors)),
    said!(Asked::Split, 4, 16380 => Ok([4095, 4095, 0])),
    said!(Asked::Split, 4, 16381 => Err(DmaBufError::InsufficientDescriptors)),
    said!(Asked::Cut(Chip::Ordinary), 13, 100 => Ok([3, 96, 1])),
    said!(Asked::Cut(Chip::S2), 13, 100 => Ok([19, 64, 17])),
    said!(Asked::Cut(Chip::S2), 13, 24 => Ok([24, 0, 0])),
];

// Row k: A is 0.
#[tactic(auto, unfolding(crate::specs::Rows::table))]
fn entry(k: usize) -> Row
    requires { k < count }
    ensures { result ≡ row_at k }
{
    ROWS[k]
}

fn split_answer(n: usize, len: usize) -> Result<[usize; 3], DmaBufError>
    ensures { result ≡ split_answer (split_of n len) }
{
    let parts = split::split_of(n, len)?;
    Ok([parts.chunk, parts.chunk + parts.rest, 0])
}

fn cut_answer(address: u32, length: u32, chip: Chip) -> Result<[usize; 3], DmaBufError>
    ensures { result ≡ cut_answer (cut_of chip address length) }
{
    let parts = cut::cut(address, length, chip)?;
    Ok([parts.head, parts.middle, parts.tail])
}

// What the code answers to a row.
fn answer_to(asked: Asked, a: u32, b: u32) -> Result<[usize; 3], DmaBufError>
    ensures { result ≡ answer_of asked a b }
{
    match asked {
        Asked::Split => split_answer(a as usize, b as usize),
        Asked::Cut(chip) => cut_answer(a, b, chip),
    }
}

// Whether an answer is what the row says.
fn is_same(said: Result<[usize; 3], DmaBufError>, answer: Result<[usize; 3], DmaBufError>) -> bool
    ensures { result ≡ same_as said answer }
{
    said == answer
}

fn show_row(rt: &impl Print, name: char, asked: Asked, a: u32, b: u32) -> io::Result<()> {
    print!(rt; "{name} {asked} {a} {b}:")
}

fn show_sizes(rt: &impl Print, first: usize, second: usize, third: usize) -> io::Result<()> {
    print!(rt; " {first} {second} {third}")
}

fn show_answer(rt: &impl Print, answer: Result<[usize; 3], DmaBufError>) -> io::Result<()> {
    match answer {
        Ok(sizes) => show_sizes(rt, sizes[0], sizes[1], sizes[2]),
        Err(e) => {
            let number = u8::from(e);
            print!(rt; " refused {number}")
        }
    }
}

fn run_row(rt: &impl Print, k: usize) -> io::Result<()>
    requires { k < count }
{
    let row = entry(k);
    show_row(rt, (b'A' + k as u8) as char, row.asked, row.a, row.b)?;
    let answer = answer_to(row.asked, row.a, row.b);
    show_answer(rt, answer)?;
    if is_same(answer, row.answer) {
        println!(rt; " same")
    } else {
        println!(rt; " differs")
    }
}

fn main(rt: HostRuntime) -> io::Result<()> {
    for k in 0..COUNT {
        run_row(&rt, k)?;
    }
    Ok(())
}
