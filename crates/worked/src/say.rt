// Answers as text.
use descriptors::refusal::DmaBufError;
use descriptors::ring::Head;
use std::fmt::Display;
use std::{fmt, io};

// What was answered, or the number that document 01 gives the refusal.
#[derive(Drop)]
pub struct Said<A>(pub Result<A, DmaBufError>);

impl<A: Display> Display for Said<A> {
    fn fmt<W: fmt::Write>(&self, f: &mut fmt::Formatter<W>) -> fmt::Result {
        match &self.0 {
            Ok(answer) => write!(f, "{answer}"),
            Err(e) => write!(f, "refused {}", u8::from(*e)),
        }
    }
}

// Numbers with a space between.
#[derive(Drop)]
pub struct Numbers<const N: usize>(pub [usize; N]);

impl<const N: usize> Display for Numbers<N> {
    fn fmt<W: fmt::Write>(&self, f: &mut fmt::Formatter<W>) -> fmt::Result {
        for (i, n) in self.0.iter().enumerate() {
            if 0 < i {
                write!(f, " ")?;
            }
            write!(f, "{n}")?;
        }
        Ok(())
    }
}

// The bytes of a part, each as two hexadecimal digits.
#[derive(Drop)]
pub struct Hex<'a>(pub &'a [u8]);

impl<'a> Display for Hex<'a> {
    fn fmt<W: fmt::Write>(&self, f: &mut fmt::Formatter<W>) -> fmt::Result {
        for byte in self.0 {
            write!(f, "{byte:02x}")?;
        }
        Ok(())
    }
}

// An answer that has no value.
pub fn done(answer: Result<(), DmaBufError>) -> Said<&'static str> {
    Said(answer.map(|()| "ok"))
}

pub fn cursor(rt: &impl Print, h: Head) -> io::Result<()> {
    println!(rt; "cursor {} {}", h.descriptor_idx, h.descriptor_offset)
}
