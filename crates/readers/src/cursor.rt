// Reads the fields of a sheet one after the other.
ghost use Rattle.std.specs.Prelude.{◌≡◌, ℕ, ◌+◌, ◌<◌, ◌≤◌, length, MatchResult};

use refusals::Refusal;
use sheets::fault::{Fault, Part};

pub mod fields;

// The bytes of a sheet, the index of the next field, and the part that it is in.
#[derive(Clone, Copy)]
pub struct Cursor<'a> {
    bytes: &'a [u8],
    at: usize,
    part: Part,
    ghost within: { at ≤ length bytes.now },
}

impl<'a> Cursor<'a> {
    // At the first byte, in the head.
    pub fn new(bytes: &'a [u8]) -> Cursor<'a>
        ensures bytes { result.bytes.now ≡ bytes.now }
        ensures at { result.at ≡ 0 }
        ensures part { result.part ≡ Part.Head }
    {
        Cursor {
            bytes,
            at: 0,
            part: Part::Head,
        }
    }

    // The index of the next field.
    pub fn place(&self) -> usize
        ensures { result ≡ self.now.at }
    {
        self.at
    }

    // A fault at a place, in the present part.
    pub fn fault(&self, refusal: Refusal, place: usize) -> Fault
        ensures { result ≡ record { refusal = refusal; place = place; part = self.now.part } }
    {
        Fault {
            refusal,
            place,
            part: self.part,
        }
    }

    // A judgement on the field at a place, whose refusal is a fault there.
    pub(crate) fn judged<T>(&self, judgement: Result<T, Refusal>, place: usize) -> Result<T, Fault>
        ensures { MatchResult judgement (λ x. result ≡ Ok x) (λ e. result ≡ Err (record { refusal = e; place = place; part = self.now.part })) }
    {
        // Matched, and no `map_err`: of a closure that calls `fault`, a proof does not know what it answers.
        match judgement {
            Ok(value) => Ok(value),
            Err(refusal) => Err(self.fault(refusal, place)),
        }
    }

    // Goes on in another part of the sheet.
    pub fn enter(&mut self, part: Part)
        ensures bytes { self.new.bytes.now ≡ self.old.bytes.now }
        ensures at { self.new.at ≡ self.old.at }
        ensures part { self.new.part ≡ part }
    {
        self.part = part;
    }
}
