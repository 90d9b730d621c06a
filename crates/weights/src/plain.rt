// The plain kind: conductors, all alike.
ghost use Rattle.std.specs.Prelude.{ℕ, ◌≤◌};
ghost use Rattle.weights.specs.Kinds.{plain_tag, plain_plus, plain_le, plain_size, plain_of, plain_nth};
ghost use Rattle.weights.specs.Laws.{limit};
ghost use Rattle.weights.specs.Kept.{plain_laws, plain_exact};
ghost use Rattle.std.proofs.Common.{rules, arith};

use crate::weight::{LIMIT, Weight, part_at};
use refusals::Refusal;

// Ordered by the conductors.
#[derive(Clone, Copy, PartialEq, Eq, PartialOrd, Ord)]
pub struct Plain {
    conductors: u32,
    ghost kept: { conductors ≤ limit },
}

impl Weight for Plain {
    const KIND: u8 = 1;

    ghost KIND = { plain_tag };

    const PARTS: usize = 1;

    ghost PARTS = { 1 };

    ghost Value = { ℕ };

    ghost value = { λ w. w.conductors };

    ghost zero = { 0 };

    ghost plus = { plain_plus };

    ghost le = { plain_le };

    ghost size = { plain_size };

    ghost of = { plain_of };

    ghost nth = { plain_nth };

    ghost laws = { plain_laws };

    ghost exact = { plain_exact };

    ghost bounded = { first_of (Prim.search rules, Prim.grind (arith, Self.row.coded.inj)) };

    ghost narrow = { first_of (Prim.search rules, Prim.grind (arith, Self.row.coded.inj)) };

    ghost told = { first_of (Prim.search rules, Prim.grind (arith, Self.row.coded.inj)) };

    fn nothing() -> Plain {
        Plain { conductors: 0 }
    }

    fn sum(self, other: Plain) -> Result<Plain, Refusal> {
        let conductors = self.conductors + other.conductors;
        if conductors > LIMIT {
            return Err(Refusal::OverLimit);
        }
        Ok(Plain { conductors })
    }

    fn at_most(self, other: Plain) -> bool {
        self <= other
    }

    fn amount(self) -> u32 {
        self.conductors
    }

    fn from_parts(parts: &[u32]) -> Result<Plain, Refusal> {
        let conductors = part_at(parts, 0);
        if conductors > LIMIT {
            return Err(Refusal::OverLimit);
        }
        Ok(Plain { conductors })
    }

    fn part(self, i: usize) -> u32 {
        if i == 0 { self.conductors } else { 0 }
    }
}
