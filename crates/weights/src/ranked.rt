// The ranked kind: safety conductors count before all others.
ghost use Rattle.std.specs.Prelude.{◌≡◌, ℕ, ◌+◌, ◌*◌, ◌≤◌};
ghost use Rattle.weights.specs.Kinds.{ranked_tag, ranked_plus, ranked_le, ranked_size, ranked_of, ranked_nth};
ghost use Rattle.weights.specs.Laws.{limit};
ghost use Rattle.weights.specs.Kept.{ranked_laws, ranked_exact};
ghost use Rattle.std.proofs.Common.{rules, arith};

use crate::weight::{LIMIT, Weight, part_at};
use refusals::Refusal;

// Ordered by the safety conductors, then by the others.
#[derive(Clone, Copy, PartialEq, Eq, PartialOrd, Ord)]
pub struct Ranked {
    safety: u32,
    other: u32,
    ghost kept: { safety + other ≤ limit },
}

// More than any number of conductors.
const SPAN: u64 = 4_294_967_296;

impl Ranked {
    // Both parts as one number, in which one safety conductor counts for more than all others can.
    fn rank(self) -> u64
        ensures { result ≡ self.safety * 4294967296 + self.other }
    {
        u64::from(self.safety) * SPAN + u64::from(self.other)
    }
}

impl Weight for Ranked {
    const KIND: u8 = 2;

    ghost KIND = { ranked_tag };

    const PARTS: usize = 2;

    ghost PARTS = { 2 };

    ghost Value = { ℕ × ℕ };

    ghost value = { λ w. (w.safety, w.other) };

    ghost zero = { (0, 0) };

    ghost plus = { ranked_plus };

    ghost le = { ranked_le };

    ghost size = { ranked_size };

    ghost of = { ranked_of };

    ghost nth = { ranked_nth };

    ghost laws = { ranked_laws };

    ghost exact = { ranked_exact };

    ghost bounded = { first_of (Prim.search rules, Prim.grind (arith, Self.row.coded.inj)) };

    ghost narrow = { first_of (Prim.search rules, Prim.grind (arith, Self.row.coded.inj)) };

    ghost told = { first_of (Prim.search rules, Prim.grind (arith, Self.row.coded.inj)) };

    fn nothing() -> Ranked {
        Ranked {
            safety: 0,
            other: 0,
        }
    }

    fn sum(self, other: Ranked) -> Result<Ranked, Refusal> {
        let safety = self.safety + other.safety;
        let rest = self.other + other.other;
        if safety + rest > LIMIT {
            return Err(Refusal::OverLimit);
        }
        Ok(Ranked {
            safety,
            other: rest,
        })
    }

    // One comparison of whole numbers: the derived order, part by part, takes longer, and the tests of pairs live on it.
    fn at_most(self, other: Ranked) -> bool {
        self.rank() <= other.rank()
    }

    fn amount(self) -> u32 {
        self.safety + self.other
    }

    fn from_parts(parts: &[u32]) -> Result<Ranked, Refusal> {
        let safety = part_at(parts, 0);
        let other = part_at(parts, 1);
        if u64::from(safety) + u64::from(other) > u64::from(LIMIT) {
            return Err(Refusal::OverLimit);
        }
        Ok(Ranked { safety, other })
    }

    fn part(self, i: usize) -> u32 {
        match i {
            0 => self.safety,
            1 => self.other,
            _ => 0,
        }
    }
}
