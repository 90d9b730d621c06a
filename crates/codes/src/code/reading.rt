// What a code tells, and how codes compare and print.
ghost use Rattle.std.specs.Prelude.{◌≡◌, ℕ, true, ◌⊎◌, length, Some, Decides, ◌==◌};
ghost use Rattle.codes.specs.Code.{is_code};
ghost use Rattle.codes.specs.Held.{bytes_of};
ghost use Rattle.std.specs.Cmp.Rules.{comparing};
ghost use Rattle.std.proofs.Common.{rules};
ghost use Rattle.std.specs.Ordering.{on};
ghost use lib.Pointwise.{pointwise};

use crate::code::FaultCode;
use std::fmt;

impl FaultCode {
    // The characters.
    pub fn text(&self) -> &[u8]
        ensures value { result.now ≡ bytes_of self.now }
        ensures code { is_code result.now ≡ true }
    {
        &self.bytes[0..self.len]
    }

    // How many characters there are, six or seven.
    pub fn len(&self) -> usize
        ensures value { result ≡ length (bytes_of self.now) }
        ensures cases { (result ≡ 6) ⊎ (result ≡ 7) }
    {
        self.len
    }

    // Whether there are seven characters.
    pub fn is_long(&self) -> bool
        ensures { result ≡ (length (bytes_of self.now) == 7) }
    {
        matches!(self.len, 7)
    }
}

// Two codes are the same where length and every character agree. A derive would speak of the fields, which
// contracts of other crates do not see, and not of the characters.
impl PartialEq for FaultCode {
    ghost eq = { on bytes_of (pointwise ◌==◌) };

    ghost laws = { Prim.search (comparing, rules) };

    fn eq(&self, other: &FaultCode) -> bool
        ensures value { result ≡ pointwise ◌==◌ (bytes_of self.now) (bytes_of other.now) }
        ensures rule { Decides result (bytes_of self.now ≡ bytes_of other.now) }
    {
        self.text() == other.text()
    }
}

impl Eq for FaultCode {
    ghost laws = { Prim.search (comparing, rules) };
}

// Writes the characters.
impl fmt::Display for FaultCode {
    ghost output = { λ c. Some (bytes_of c) };

    fn fmt<W: fmt::Write>(&self, f: &mut fmt::Formatter<W>) -> fmt::Result {
        match std::str::from_utf8(self.text()) {
            Ok(text) => f.pad(text),
            // never comes, as letters and digits are text
            Err(_) => Err(fmt::Error),
        }
    }
}

// Writes the characters too; a derive would write the numbers of the bytes.
impl fmt::Debug for FaultCode {
    fn fmt<W: fmt::Write>(&self, f: &mut fmt::Formatter<W>) -> fmt::Result {
        write!(f, "{self}")
    }
}
