// Calls with pseudo-random arguments: many that are to be accepted, and many with one fault or several.
ghost use Rattle.std.specs.Prelude.{◌≡◌};

use crate::calls::Call;
use crate::model::{Lent, Model};
use samples::coded::code;
use samples::dice::Dice;
use samples::wire::{Parts, WeightKind};
use std::alloc::{AllocError, Global};

// The three forms of runs.
#[derive(Clone, Copy, PartialEq, Eq)]
pub enum Form {
    Short,
    // begins with a plan that takes scans
    Woven,
    // units and links are to come up to their most
    Filling,
}

// What draws the calls of runs with weights of one kind; what round trips draw alike is in `samples`.
#[derive(Drop)]
pub struct Draws {
    pub heap: Global,
    dice: Dice,
    kind: WeightKind,
    pub form: Form,
    // from how many codes those of the units are taken, so that there are no more units than that
    pub codes: usize,
}

// The ends of a link of a woven plan. A block is two halves, each unit of one linked to each of the other; after the
// links of one block or two come those between the two.
fn woven(place: usize, half: usize) -> (usize, usize) {
    let block = half.saturating_mul(2);
    let square = half.saturating_mul(half);
    if half == 0 || square == 0 {
        return (0, 0);
    }
    let at = place % square;
    let one = at / half;
    let other = half.saturating_add(at % half);
    match place / square {
        0 => (one, other),
        1 => (block.saturating_add(one), block.saturating_add(other)),
        _ => (at, block.saturating_add(at)),
    }
}

// The calls that a woven run begins with: units, links, an answer about them, and two trials. With every weight 1, no
// triangle and three links or more to a unit no pair meets a test, so that there are scans. Twelve units are two blocks
// of six with two links between them, which are the weakest division.
fn weave(heap: Global, turn: usize, units: usize) -> Result<Option<Call>, AllocError> {
    let half = if units == 12 { 3 } else { units / 2 };
    let links = if units == 12 {
        20
    } else {
        half.saturating_mul(half)
    };
    if turn < units {
        return Ok(Some(Call::Enter(code(heap, turn)?)));
    }
    let place = turn - units;
    if place < links {
        let (first, second) = woven(place, half);
        return Ok(Some(Call::Link(first, second, (1, 0))));
    }
    let lent = Lent::exact(units);
    Ok(match place - links {
        0 => Some(Call::Weakest(lent)),
        1 => Some(Call::Trial(0, lent)),
        2 => Some(Call::Trial(5, lent)),
        _ => None,
    })
}

impl Draws {
    // Numbers of its own for each kind.
    pub fn new(heap: Global, kind: WeightKind) -> Draws
        ensures kind { result.kind ≡ kind }
        ensures form { result.form ≡ Form.Short }
    {
        let seed = match kind {
            WeightKind::Plain => 20_000,
            WeightKind::Ranked => 20_001,
        };
        Draws {
            heap,
            dice: Dice::new(seed),
            kind,
            form: Form::Short,
            codes: 0,
        }
    }

    // Makes characters no code: too few, too many, or one that may not stand where it does.
    fn spoil(&mut self, text: &mut Vec<u8>) -> Result<(), AllocError> {
        let odd = b"az/:@[\0\xFF X";
        match self.dice.below(5) {
            0 => text.truncate(5),
            1 => text.extend_from_slice(b"00")?,
            2 if !text.is_empty() => text[0] = b"XQA0"[self.dice.below(4)],
            _ => {
                let place = self.dice.below(text.len());
                let letter = odd[self.dice.below(10)];
                if let Some(old) = text.get_mut(place) {
                    *old = letter;
                }
            }
        }
        Ok(())
    }

    // A code, or characters that are none.
    fn text(&mut self) -> Result<Vec<u8>, AllocError> {
        let mut text = code(self.heap, self.dice.below(self.codes))?;
        if self.dice.one_in(5) {
            self.spoil(&mut text)?;
        }
        Ok(text)
    }

    // A number that is mostly below a count, and at times at it, above it, or far above it.
    fn number(&mut self, count: usize) -> usize {
        match self.dice.below(40) {
            0 => count,
            1 => count.saturating_add(1),
            2 => self.dice.below(count).saturating_add(256),
            3 => self.dice.below(count).saturating_add(65536),
            4 => usize::MAX,
            _ => self.dice.below(count),
        }
    }

    // An amount: often small, at times nothing, large, or just within or past one of the limits.
    fn amount(&mut self, total: u64) -> u64 {
        let filling = self.form == Form::Filling;
        let rest = 1_000_000u64.saturating_sub(total);
        let large = self.dice.below(400_000) as u64;
        match self.dice.below(32) {
            0 | 1 | 2 => 0,
            3 if !filling => rest,
            4 => rest.saturating_add(1),
            5 | 6 | 7 if !filling => large.saturating_add(100_000),
            8 => 2_000_000,
            9 => 2_000_001,
            10 => large.saturating_add(3_000_000),
            11 => u64::from(u32::MAX),
            _ => (self.dice.below(6) as u64).saturating_add(1),
        }
    }

    // The parts of a weight: for the ranked kind the amount in one part, in the other, or in both.
    fn parts(&mut self, total: u64) -> Parts {
        let whole = u32::try_from(self.amount(total)).unwrap_or(u32::MAX);
        if self.kind == WeightKind::Plain {
            return (whole, 0);
        }
        match self.dice.below(4) {
            0 => (whole, 0),
            1 => (0, whole),
            2 if whole == u32::MAX => (whole, whole),
            _ => {
                let first = self.dice.below(whole as usize) as u32;
                (first, whole - first)
            }
        }
    }

    // Marks for so many units, or for one more or less: random ones, all alike, or one of them no mark.
    fn marks(&mut self, units: usize) -> Result<Vec<u8>, AllocError> {
        let count = match self.dice.below(10) {
            0 => units.saturating_add(1),
            1 => units.saturating_sub(1),
            _ => units,
        };
        let form = self.dice.below(6);
        let mut marks = Vec::new(self.heap);
        for _ in 0..count {
            let mark = match form {
                0 => 0,
                1 => 1,
                _ => u8::from(self.dice.one_in(2)),
            };
            marks.push(mark)?;
        }
        if self.dice.one_in(6) && !marks.is_empty() {
            let place = self.dice.below(count);
            if let Some(mark) = marks.get_mut(place) {
                *mark = if self.dice.one_in(2) { 2 } else { 255 };
            }
        }
        Ok(marks)
    }

    // Memory that suffices for so many units, exactly or with some to spare, or that is short by one.
    fn lent(&mut self, units: usize) -> Lent {
        let exact = Lent::exact(units);
        match self.dice.below(12) {
            0 => Lent {
                marks: exact.marks.saturating_sub(1),
                ..exact
            },
            1 => Lent {
                entries: exact.entries.saturating_sub(1),
                ..exact
            },
            2 => Lent {
                weights: exact.weights.saturating_sub(1),
                ..exact
            },
            3 | 4 | 5 => exact,
            _ => Lent {
                marks: exact.marks.saturating_add(2),
                entries: exact.entries.saturating_add(3),
                weights: exact.weights.saturating_add(4),
            },
        }
    }

    fn link(&mut self, model: &Model) -> Call {
        let units = model.codes.len();
        let first = self.number(units);
        let second = if self.dice.one_in(8) {
            first
        } else {
            self.number(units)
        };
        Call::Link(first, second, self.parts(model.total()))
    }

    fn reweigh(&mut self, model: &Model) -> Call {
        let link = self.number(model.wires.len());
        Call::Reweigh(link, self.parts(model.total_but(link)))
    }

    fn mark(&mut self, links: usize) -> Call {
        let mark = match self.dice.below(8) {
            0 => 2,
            1 => 255,
            2 | 3 => 0,
            _ => 1,
        };
        Call::Mark(self.number(links), mark)
    }

    // The call at a turn of a run. In a run that fills the plan most calls add a unit or a link; in any other one in
    // three asks for the weakest division, so that most edits are followed by one soon.
    pub fn call(&mut self, model: &Model, turn: usize) -> Result<Call, AllocError> {
        if self.form == Form::Woven {
            if let Some(call) = weave(self.heap, turn, self.codes)? {
                return Ok(call);
            }
        }
        let filling = self.form == Form::Filling;
        let units = model.codes.len();
        let links = model.wires.len();
        let choice = self.dice.below(if filling { 80 } else { 26 });
        Ok(match choice {
            0 | 1 => Call::Enter(self.text()?),
            2 => Call::Recode(self.number(units), self.text()?),
            3 => Call::Strike(self.number(links)),
            4 | 5 => self.reweigh(model),
            6 | 7 => self.mark(links),
            8 | 9 => Call::Weigh(self.marks(units)?),
            10 | 11 | 12 => Call::Weakest(self.lent(units)),
            13 => Call::Trial(self.number(links), self.lent(units)),
            20..=31 if filling => Call::Enter(self.text()?),
            20..=25 => Call::Weakest(self.lent(units)),
            _ => self.link(model),
        })
    }
}
