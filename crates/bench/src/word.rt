// The words of a line: what stands between blanks. A blank is a space or a tab.
// The words that a line has left.
#[derive(Clone, Copy)]
pub struct Words<'a> {
    rest: &'a [u8],
}

fn is_blank(b: u8) -> bool {
    b == b' ' || b == b'\t'
}

impl<'a> Words<'a> {
    pub fn of(line: &'a [u8]) -> Words<'a> {
        Words { rest: line }
    }

    // The next word.
    pub fn word(&mut self) -> Option<&'a [u8]> {
        let start = self.rest.iter().position(|b| !is_blank(*b))?;
        let (_, rest) = self.rest.split_at(start);
        let end = rest.iter().position(|b| is_blank(*b)).unwrap_or(rest.len());
        let (word, rest) = rest.split_at(end);
        self.rest = rest;
        Some(word)
    }
}
