// Why a pair of groups may be merged.
ghost use Rattle.std.specs.Prelude.{◌≡◌, Some};
ghost use Rattle.cuts.specs.Numbers.{ground_number};

use std::fmt;

// The grounds in the order in which they are tried; `docs/METHOD.md` says what each asks.
#[derive(Clone, Copy, PartialEq, Eq, Debug)]
pub enum Ground {
    Heavy = 1,
    Unbalanced = 2,
    Triangle = 3,
    Neighbourhood = 4,
    Scan = 5,
}

impl Ground {
    // The number that stands for the ground in a record.
    pub fn number(self) -> u8
        ensures { result ≡ ground_number self }
    {
        self as u8
    }
}

// The same number, as a conversion.
impl From<Ground> for u8 {
    ghost from_gives = { λ why number. number ≡ ground_number why };

    fn from(ground: Ground) -> u8 {
        ground.number()
    }
}

// Writes the number.
impl fmt::Display for Ground {
    ghost use Rattle.cuts.specs.Shown.{ground_text};

    ghost output = { λ why. Some (ground_text why) };

    fn fmt<W: fmt::Write>(&self, f: &mut fmt::Formatter<W>) -> fmt::Result {
        fmt::Display::fmt(&self.number(), f)
    }
}
