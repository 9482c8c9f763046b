// Bytes as pairs of hex digits without blanks, `-` for none.
ghost use Rattle.std.specs.Prelude.{Some, ◌≡◌, ℕ, ◌+◌, ◌*◌, ◌<◌, ◌≤◌, length, get_or};
ghost use Rattle.bench.specs.Pairs.{pair_at, digits_of, told};

use crate::digit;
use crate::why::Why;
use std::fmt;

// Pair i of a word's digits.
#[tactic(auto, unfolding(crate::specs::Pairs::pair_at))]
fn pair(word: &[u8], i: usize) -> Option<u8>
    requires { 2 * i + 1 < length word.now }
    ensures { result ≡ pair_at word.now i }
{
    let high = digit::value_of(word[2 * i])?;
    let low = digit::value_of(word[2 * i + 1])?;
    Some(16 * high + low)
}

// The first k pairs of a word, to the data's front.
fn decode(word: &[u8], k: usize, data: &mut [u8]) -> Result<(), Why>
    requires { (2 * k ≤ length word.now) × (k ≤ length «data».old) }
    ensures { (j : ℕ) → j < k → result ≡ Ok tt → Some (get_or «data».new j 0) ≡ pair_at word.now j }
{
    for i in 0..k {
        data[i] = pair(word, i).ok_or(Why::NoBytes)?;
    }
    Ok(())
}

// The bytes that a word spells, at the data's front.
pub fn read<'a>(word: &[u8], data: &'a mut [u8]) -> Result<&'a [u8], Why> {
    if word == b"-".as_slice() {
        return Ok(&[]);
    }
    if word.len() % 2 != 0 {
        return Err(Why::Odd);
    }
    let k = word.len() / 2;
    if data.len() < k {
        return Err(Why::TooLong);
    }
    decode(word, k, data)?;
    Ok(&data[..k])
}

// How many bytes are spelled at a time.
const SPELLED: usize = 128;

// The digits of some bytes, at the front of the room.
fn spell<'a>(part: &[u8], room: &'a mut [u8]) -> &'a str
    requires { 2 * length part.now ≤ length room.old }
    ensures { result.now ≡ digits_of part.now }
{
    for i in 0..part.len() {
        room[2 * i] = digit::digit_of(part[i] / 16);
        room[2 * i + 1] = digit::digit_of(part[i]);
    }
    unsafe { str::from_utf8_unchecked(&room[..2 * part.len()]) }
}

// Bytes, to be told.
#[derive(Clone, Copy)]
pub struct Pairs<'a>(pub &'a [u8]);

impl fmt::Display for Pairs<'_> {
    ghost output = { λ p. Some (told p.0.now) };

    fn fmt<W: fmt::Write>(&self, f: &mut fmt::Formatter<W>) -> fmt::Result {
        if self.0.is_empty() {
            return f.write_str("-");
        }
        let mut room = [0u8; 2 * SPELLED];
        for part in self.0.chunks(SPELLED) {
            f.write_str(spell(part, &mut room))?;
        }
        Ok(())
    }
}
