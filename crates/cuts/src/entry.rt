// One merger of a record.
ghost use Rattle.std.specs.Prelude.{Some};

use crate::ground::Ground;
use std::fmt;

// The two groups as they stood, the lower one first, the ground, and the scan's number from 1, or 0 for a test: a number
// and no `Option`, since records are printed and compared as these four numbers.
#[derive(Clone, Copy, PartialEq, Eq, Debug)]
pub struct Entry {
    pub low: u8,
    pub high: u8,
    pub ground: Ground,
    pub scan: u8,
}

// Writes the four numbers, with a blank between two.
impl fmt::Display for Entry {
    ghost use Rattle.cuts.specs.Shown.{entry_text};

    ghost output = { λ entry. Some (entry_text entry) };

    fn fmt<W: fmt::Write>(&self, f: &mut fmt::Formatter<W>) -> fmt::Result {
        write!(
            f,
            "{} {} {} {}",
            self.low, self.high, self.ground, self.scan
        )
    }
}
