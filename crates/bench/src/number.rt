// A number as it is written: decimal, or hex after `0x`.
ghost use Rattle.std.specs.Prelude.{◌≡◌};
ghost use Rattle.bench.specs.Number.{is_hex, numeral_of, number_of};

use crate::digit;
use crate::why::Why;

// The number that digits spell in a base.
fn numeral(digits: &[u8], base: usize) -> Result<usize, Why>
    ensures { result ≡ numeral_of base 0 digits.now }
{
    let mut value: usize = 0;
    for b in digits {
        let d = digit::value_of(*b).ok_or(Why::NoNumber)? as usize;
        if base <= d {
            return Err(Why::NoNumber);
        }
        let shifted = value.checked_mul(base).ok_or(Why::OutOfRange)?;
        value = shifted.checked_add(d).ok_or(Why::OutOfRange)?;
    }
    Ok(value)
}

// Not a slice pattern with the digits behind it: tried, and a proof knows of its arms the length alone.
#[tactic(auto, unfolding(crate::specs::Number::is_hex))]
fn is_hex(word: &[u8]) -> bool
    ensures { result ≡ is_hex word.now }
{
    word.len() >= 2 && word[0] == b'0' && word[1] == b'x'
}

pub fn read(word: &[u8]) -> Result<usize, Why>
    ensures { result ≡ number_of word.now }
{
    if is_hex(word) {
        if word.len() == 2 {
            return Err(Why::NoNumber);
        }
        return numeral(&word[2..], 16);
    }
    if word.is_empty() {
        return Err(Why::NoNumber);
    }
    numeral(word, 10)
}
