// Divisions of a plan by hand: what each cuts, and the lightest by trying all of them.
use crate::model::{Answered, NOTHING, Reply, Seen, Trouble, UNTOUCHED};
use samples::wire::{Parts, Wire};

// Up to so many units every division is tried.
const FEW: usize = 12;

// Units, numbered from 0, and links between them. Of two weights the first parts decide, then the second.
#[derive(Clone, Copy)]
pub struct Network<'a> {
    pub units: usize,
    pub wires: &'a [Wire],
}

fn plus(a: Parts, b: Parts) -> Parts {
    (a.0.saturating_add(b.0), a.1.saturating_add(b.1))
}

// Whether a division, numbered by its bits, marks a unit. None marks unit 0.
fn marks(division: u32, unit: usize) -> bool {
    1 <= unit && unit <= 32 && (division >> (unit - 1)) & 1 == 1
}

// Whether the memory for marks holds a division that leaves unit 0 unmarked, and past its units what it held.
fn is_division(units: usize, marks: &[u8]) -> bool {
    let fits = marks.iter().enumerate().all(|(unit, mark)| match *mark {
        UNTOUCHED => unit >= units,
        0 => unit < units,
        1 => 0 < unit && unit < units,
        _ => false,
    });
    fits && marks.contains(&1)
}

impl Network<'_> {
    // The weight of the links in service between the marked units and the others.
    fn cut_by<F: Fn(usize) -> bool>(self, is_marked: F) -> Parts
        requires { F.IsAlwaysCallable is_marked }
    {
        let mut sum = NOTHING;
        for wire in self.wires {
            if wire.serves && is_marked(wire.ends.0) != is_marked(wire.ends.1) {
                sum = plus(sum, wire.parts);
            }
        }
        sum
    }

    // The weight of the division that the marks give.
    pub fn cut(self, marks: &[u8]) -> Parts {
        self.cut_by(|unit| marks.get(unit).copied() == Some(1))
    }

    // The lightest weight of all divisions of a few units.
    fn lightest(self) -> Option<Parts> {
        if self.units < 2 || self.units > FEW {
            return None;
        }
        (1..1u32 << (self.units - 1))
            .map(|division| self.cut_by(|unit| marks(division, unit)))
            .min()
    }

    // Whether some unit by itself is cut off by less than a weight.
    fn is_undercut(self, weight: Parts) -> bool {
        (0..self.units).any(|alone| self.cut_by(|unit| unit == alone) < weight)
    }

    // What an answer has to be, where the memory for marks holds what was written there. Which marks come and how many
    // scans there were is open, and with figure nothing how many mergers up to units - 2.
    pub fn judged(self, kept: bool, seen: &Seen) -> Result<Reply, Trouble> {
        let units = self.units;
        let marks = seen.marks.as_slice();
        let weight = self.cut(marks);
        let figure = self.lightest().unwrap_or(weight);
        if !is_division(units, marks) || weight != figure || self.is_undercut(weight) {
            return Err(Trouble::WrongMarks);
        }
        if kept {
            return Ok(Reply::Answer(Answered {
                figure,
                kept,
                mergers: 0,
                scans: 0,
                cleared: 0,
            }));
        }
        let (mergers, scans) = match seen.reply {
            Ok(Reply::Answer(answer)) => (answer.mergers, answer.scans),
            _ => (0, 0),
        };
        let all = units.saturating_sub(2);
        let fewer = figure == NOTHING && mergers < all;
        Ok(Reply::Answer(Answered {
            figure,
            kept,
            mergers: if fewer { mergers } else { all },
            scans,
            cleared: units.saturating_mul(units),
        }))
    }
}
