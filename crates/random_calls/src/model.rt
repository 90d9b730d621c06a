// A plan as docs/RULES.md describes it, in plain lists, apart from the library: each call is checked, made and answered
// by itself. A plain weight stands as two parts with the second 0, so that one model serves both kinds.
ghost use Rattle.std.specs.Prelude.{◌≡◌, ◌+◌, ◌*◌, ◌<◌, ◌≤◌, ◌↔◌, IfOk, IsTrue, OnOk, [], ◌∷◌, ◌++◌, true, if◌then◌else◌, length, min, not, slice_set, vec_len};
ghost use Rattle.std.specs.List.{remove};

use crate::model::divisions::Network;
use samples::wire::{Parts, Wire};
use std::alloc::{AllocError, AllocFailed, Global};

mod divisions;
mod workings;

pub const NOTHING: Parts = (0, 0);

// What the memory for marks holds before it is lent.
pub const UNTOUCHED: u8 = 9;

// How much memory is lent for an answer: marks, record entries and weights. This and `Reply` are not those of `runs`,
// since the model shares nothing with what the library promises.
#[derive(Clone, Copy, Debug)]
pub struct Lent {
    pub marks: usize,
    pub entries: usize,
    pub weights: usize,
}

// What an accepted weakest or trial answers, and how many of the lent weights it has set to nothing.
#[derive(Clone, Copy, PartialEq, Eq, Debug)]
pub struct Answered {
    pub figure: Parts,
    pub kept: bool,
    pub mergers: usize,
    pub scans: usize,
    pub cleared: usize,
}

// What an accepted call answers.
#[derive(Clone, Copy, PartialEq, Eq, Debug)]
pub enum Reply {
    Done,
    Number(usize),
    Weight(Parts),
    Answer(Answered),
}

// Why a call has no reply.
#[derive(Clone, Copy, PartialEq, Eq, Debug)]
pub enum Trouble {
    // it is refused with this number, as the rules give it
    Refused(u8),
    // the marks of an answer are not those of its figure, or not those that were kept
    WrongMarks,
    // memory is changed that should not be
    WrongMemory,
    // there is no memory for the call or for the model
    NoMemory,
}

// What is seen of a call: the reply, and the memory for marks after a call that was lent some.
#[derive(Drop)]
pub struct Seen {
    pub reply: Result<Reply, Trouble>,
    pub marks: Vec<u8>,
}

#[derive(Drop)]
pub struct Model {
    heap: Global,
    pub codes: Vec<Vec<u8>>,
    pub wires: Vec<Wire>,
    // the marks that are kept, if any
    kept: Option<Vec<u8>>,
}

impl From<AllocError> for Trouble {
    fn from(_error: AllocError) -> Trouble {
        Trouble::NoMemory
    }
}

impl<T: Drop> From<AllocFailed<T>> for Trouble {
    fn from(_error: AllocFailed<T>) -> Trouble {
        Trouble::NoMemory
    }
}

impl Lent {
    // Just as much as so many units need.
    pub fn exact(units: usize) -> Lent
        ensures { result ≡ record { marks = units; entries = units; weights = min (units * units) usize.MAX } }
    {
        Lent {
            marks: units,
            entries: units,
            weights: units.saturating_mul(units),
        }
    }

    // Whether it is less than so many units need.
    fn is_short(self, units: usize) -> bool
        ensures { IsTrue (not result) ↔ (units ≤ self.marks) × (units ≤ self.entries) × (min (units * units) usize.MAX ≤ self.weights) }
    {
        let exact = Lent::exact(units);
        self.marks < exact.marks || self.entries < exact.entries || self.weights < exact.weights
    }
}

fn is_code(text: &[u8]) -> bool {
    let known = text.iter().all(|letter| letter.is_ascii_uppercase() || letter.is_ascii_digit());
    matches!(text.len(), 6 | 7) && known && matches!(text.first(), Some(b'P' | b'C' | b'B' | b'U'))
}

pub fn amount(parts: Parts) -> u64
    ensures { result ≡ parts.0 + parts.1 }
{
    u64::from(parts.0) + u64::from(parts.1)
}

// What a link carries: nothing while it is out of service.
fn carried(wire: Wire) -> Parts
    ensures { result ≡ (if wire.serves then wire.parts else NOTHING) }
{
    if wire.serves { wire.parts } else { NOTHING }
}

impl Model {
    pub fn new(heap: Global) -> Model
        ensures codes { result.codes.items ≡ [] }
        ensures wires { result.wires.items ≡ [] }
        ensures kept { result.kept ≡ None }
    {
        Model {
            heap,
            codes: Vec::new(heap),
            wires: Vec::new(heap),
            kept: None,
        }
    }

    // The amounts of all links.
    pub fn total(&self) -> u64 {
        self.wires.iter().fold(0u64, |total, wire| total.saturating_add(amount(wire.parts)))
    }

    // The amounts of all links but one.
    pub fn total_but(&self, link: usize) -> u64 {
        let without = self.wires.get(link).map_or(0, |wire| amount(wire.parts));
        self.total().saturating_sub(without)
    }

    // The unit that bears a code.
    fn bearer(&self, text: &[u8]) -> Option<usize> {
        self.codes.iter().position(|code| code.as_slice() == text)
    }

    // Between two units the weight in service goes from one to another. Kept marks stay weakest where what they cut
    // gets no heavier, or what they leave whole gets no lighter.
    fn settle(&mut self, ends: (usize, usize), before: Parts, after: Parts)
        ensures { self.new ≡ record self.old { kept = self.new.kept } }
    {
        let stays = self.kept.as_ref().is_some_and(|sides| {
            if sides.get(ends.0).copied() == sides.get(ends.1).copied() {
                before <= after
            } else {
                after <= before
            }
        });
        if !stays {
            self.kept = None;
        }
    }

    pub fn enter(&mut self, text: &[u8]) -> Result<usize, Trouble>
        ensures number { IfOk result (λ number. number ≡ vec_len self.old.codes) }
        ensures units { OnOk result (vec_len self.new.codes ≡ vec_len self.old.codes + 1) }
    {
        let number = self.codes.len();
        if !is_code(text) {
            return Err(Trouble::Refused(7));
        }
        if self.bearer(text).is_some() {
            return Err(Trouble::Refused(8));
        }
        if number >= 64 {
            return Err(Trouble::Refused(6));
        }
        self.codes.push(text.to_vec(self.heap)?)?;
        self.kept = None;
        Ok(number)
    }

    pub fn recode(&mut self, unit: usize, text: &[u8]) -> Result<(), Trouble>
        ensures unit { OnOk result (unit < vec_len self.old.codes) }
    {
        if unit >= self.codes.len() {
            return Err(Trouble::Refused(9));
        }
        if !is_code(text) {
            return Err(Trouble::Refused(7));
        }
        if self.bearer(text).is_some_and(|bearer| bearer != unit) {
            return Err(Trouble::Refused(8));
        }
        self.codes[unit] = text.to_vec(self.heap)?;
        Ok(())
    }

    pub fn link(&mut self, ends: (usize, usize), parts: Parts) -> Result<usize, Trouble>
        ensures number { IfOk result (λ number. number ≡ vec_len self.old.wires) }
        ensures links { OnOk result (self.new.wires.items ≡ self.old.wires.items ++ (record { ends = ends; serves = true; parts = parts } ∷ [])) }
    {
        let units = self.codes.len();
        let number = self.wires.len();
        if ends.0 >= units || ends.1 >= units {
            return Err(Trouble::Refused(9));
        }
        if ends.0 == ends.1 {
            return Err(Trouble::Refused(10));
        }
        if parts == NOTHING {
            return Err(Trouble::Refused(11));
        }
        if number >= 512 {
            return Err(Trouble::Refused(6));
        }
        if self.total().saturating_add(amount(parts)) > 1_000_000 {
            return Err(Trouble::Refused(12));
        }
        let serves = true;
        self.wires.push(Wire {
            ends,
            serves,
            parts,
        })?;
        self.settle(ends, NOTHING, parts);
        Ok(number)
    }

    // A link, if there is one with this number.
    fn wire(&self, link: usize) -> Result<Wire, Trouble>
        ensures { OnOk result (link < vec_len self.now.wires) }
    {
        self.wires.get(link).copied().ok_or(Trouble::Refused(13))
    }

    pub fn strike(&mut self, link: usize) -> Result<(), Trouble>
        ensures links { OnOk result (self.new.wires.items ≡ remove self.old.wires.items link) }
    {
        if link >= self.wires.len() {
            return Err(Trouble::Refused(13));
        }
        let old = self.wires.remove(link);
        self.settle(old.ends, carried(old), NOTHING);
        Ok(())
    }

    // Puts another link in the place of one.
    fn change(&mut self, link: usize, old: Wire, new: Wire)
        ensures { self.new.wires.items ≡ slice_set self.old.wires.items link new }
    {
        if let Some(wire) = self.wires.get_mut(link) {
            *wire = new;
        }
        self.settle(new.ends, carried(old), carried(new));
    }

    pub fn reweigh(&mut self, link: usize, parts: Parts) -> Result<(), Trouble>
        ensures link { OnOk result (link < vec_len self.old.wires) }
    {
        let old = self.wire(link)?;
        if parts == NOTHING {
            return Err(Trouble::Refused(11));
        }
        if self.total_but(link).saturating_add(amount(parts)) > 1_000_000 {
            return Err(Trouble::Refused(12));
        }
        self.change(link, old, Wire { parts, ..old });
        Ok(())
    }

    pub fn mark(&mut self, link: usize, mark: u8) -> Result<(), Trouble>
        ensures link { OnOk result (link < vec_len self.old.wires) }
    {
        let old = self.wire(link)?;
        let serves = match mark {
            0 => false,
            1 => true,
            _ => return Err(Trouble::Refused(14)),
        };
        self.change(link, old, Wire { serves, ..old });
        Ok(())
    }

    // The plan's links over its units.
    fn network(&self) -> Network {
        Network {
            units: self.codes.len(),
            wires: self.wires.as_slice(),
        }
    }

    pub fn weigh(&self, marks: &[u8]) -> Result<Parts, Trouble>
        ensures { OnOk result ((2 ≤ vec_len self.now.codes) × (length marks.now ≡ vec_len self.now.codes)) }
    {
        let units = self.codes.len();
        if units < 2 {
            return Err(Trouble::Refused(15));
        }
        if marks.len() != units || marks.iter().any(|mark| *mark > 1) {
            return Err(Trouble::Refused(14));
        }
        if !marks.contains(&0) || !marks.contains(&1) {
            return Err(Trouble::Refused(15));
        }
        Ok(self.network().cut(marks))
    }
}
