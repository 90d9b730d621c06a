// Plans with pseudo-random codes and links, as they are drawn up before any call is made.
use samples::coded::code;
use samples::dice::Dice;
use samples::wire::{Parts, WeightKind, Wire};
use std::alloc::{AllocError, Global};

// A plan as plain values.
#[derive(Drop)]
pub struct Draft {
    pub kind: WeightKind,
    pub codes: Vec<Vec<u8>>,
    pub wires: Vec<Wire>,
}

// What draws up the plans, with weights of one kind. Not the draws of random calls, whose arguments may have faults, and
// whose numbers are drawn in another order; what both draw alike is in `samples`.
#[derive(Drop)]
pub struct Draws {
    pub heap: Global,
    pub dice: Dice,
    pub kind: WeightKind,
}

impl Draws {
    // Two different units.
    fn ends(&mut self, units: usize) -> (usize, usize) {
        let first = self.dice.below(units);
        let second = self.dice.below(units);
        if first != second {
            return (first, second);
        }
        if first == 0 { (0, 1) } else { (first, 0) }
    }

    // The parts of a weight with an amount, over both of them; random calls put it in one of them at times.
    fn parts(&mut self, amount: u32) -> Parts {
        match self.kind {
            WeightKind::Plain => (amount, 0),
            WeightKind::Ranked => {
                let safety = self.dice.below(amount as usize) as u32;
                (safety, amount - safety)
            }
        }
    }

    // Links over at least two units, whose amounts keep the limit of 1,000,000 and at times come up to it.
    fn wires(&mut self, units: usize) -> Result<Vec<Wire>, AllocError> {
        let mut wires = Vec::new(self.heap);
        let most = if self.dice.one_in(8) { 513 } else { 20 };
        let mut left = 1_000_000u32;
        for _ in 0..self.dice.below(most) {
            let share = match self.dice.below(6) {
                0 => left,
                1 => left / 2,
                _ => 2_000,
            };
            let amount = (self.dice.below(share as usize) as u32)
                .saturating_add(1)
                .min(left);
            if amount == 0 {
                break;
            }
            left -= amount;
            wires.push(Wire {
                ends: self.ends(units),
                serves: !self.dice.one_in(3),
                parts: self.parts(amount),
            })?;
        }
        Ok(wires)
    }

    // A plan within the rules: none to 64 units, with codes of seven characters in two of three plans.
    pub fn draft(&mut self) -> Result<Draft, AllocError> {
        let most = if self.dice.one_in(8) { 65 } else { 10 };
        let units = self.dice.below(most);
        let start = self.dice.below(3000);
        let step = if self.dice.one_in(3) { 2 } else { 1 };
        let mut codes = Vec::new(self.heap);
        for k in 0..units {
            codes.push(code(self.heap, start.saturating_add(k).saturating_mul(step))?)?;
        }
        let wires = if units < 2 {
            Vec::new(self.heap)
        } else {
            self.wires(units)?
        };
        Ok(Draft {
            kind: self.kind,
            codes,
            wires,
        })
    }
}
