// The list of pieces over the first records, and where each piece lies.
use crate::command::Range;
use crate::show::counted;
use descriptors::cells;
use psram::cut;
use psram::held::Listed;
use psram::plan::Cut;
use std::fmt;

// The records that hold a list, and the part of its range that is moved directly.
#[derive(Clone, Copy)]
pub struct Pieces<'a> {
    pub listed: Listed,
    pub direct: Direct,
    pub starts: &'a [u32],
    pub cells: &'a [u16],
}

// Where the direct pieces begin in the range, and how many bytes they have.
#[derive(Clone, Copy, Default)]
pub struct Direct {
    start: usize,
    size: usize,
}

impl Direct {
    pub fn of(range: Range) -> Direct {
        match cut::cut(range.address, range.length, range.chip) {
            Err(_) => Direct::default(),
            Ok(Cut { head, middle, .. }) => Direct {
                start: head,
                size: middle,
            },
        }
    }

    // What holds the piece that begins there.
    fn holder(self, from: usize) -> &'static str {
        if self.start <= from && from - self.start < self.size {
            " range "
        } else {
            " store "
        }
    }
}

impl fmt::Display for Pieces<'_> {
    fn fmt<W: fmt::Write>(&self, f: &mut fmt::Formatter<W>) -> fmt::Result {
        let Listed { covered, used } = self.listed;
        write!(f, "covered {covered} records {used}")?;
        let mut from: usize = 0;
        for i in 0..used {
            let size = cells::size_of(self.cells, i);
            counted(f, "\npiece ", i)?;
            counted(f, self.direct.holder(from), cells::start_of(self.starts, i))?;
            counted(f, " ", size)?;
            from = from.saturating_add(size);
        }
        Ok(())
    }
}
