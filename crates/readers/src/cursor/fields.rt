// A field must be whole: 4 where the sheet ends inside it.
ghost use Rattle.std.specs.Prelude.{◌≡◌, ℕ, ◌+◌, ◌<◌, ◌≤◌, length, IfOk, nat_le};
ghost use Rattle.plans.specs.Calls.{accepted, check};
ghost use Rattle.sheets.specs.Fields.{byte_at, bytes_at, four_at, two_at};
ghost use Rattle.sheets.specs.Format.{four, two};
ghost use Rattle.readers.specs.Steps.{Took};

use crate::cursor::Cursor;
use refusals::Refusal;
use sheets::fault::{Fault, Part};

impl<'a> Cursor<'a> {
    // The next `size` bytes, which are one field.
    pub fn field(&mut self, size: usize) -> Result<&'a [u8], Fault>
        ensures took { Took self.old self.old.part size accepted result self.new (λ s. s.now ≡ bytes_at self.old.bytes.now self.old.at size) }
        ensures length { IfOk result (λ s. length s.now ≡ size) }
    {
        let place = self.at;
        let Some(field) = self.bytes[place..].get(..size) else {
            return Err(self.fault(Refusal::Truncated, place));
        };
        self.at = place + size;
        Ok(field)
    }

    // The next field of a fixed size.
    fn array<const N: usize>(&mut self) -> Result<[u8; N], Fault>
        ensures took { Took self.old self.old.part N accepted result self.new (λ s. s ≡ bytes_at self.old.bytes.now self.old.at N) }
        ensures length { IfOk result (λ s. length s ≡ N) }
    {
        let field = self.field(N)?;
        Ok(field.try_into().unwrap())
    }

    // A number of one byte.
    pub fn byte(&mut self) -> Result<u8, Fault>
        ensures { Took self.old self.old.part 1 accepted result self.new (λ n. n ≡ byte_at self.old.bytes.now self.old.at) }
    {
        let [byte] = self.array::<1>()?;
        Ok(byte)
    }

    // A number of two bytes, the low one first. Two functions, since each type has a `from_le_bytes` of its own.
    pub fn two_bytes(&mut self) -> Result<u16, Fault>
        ensures { Took self.old self.old.part 2 accepted result self.new (λ n. (n ≡ two_at self.old.bytes.now self.old.at) × (bytes_at self.old.bytes.now self.old.at 2 ≡ two n)) }
    {
        let field = self.array()?;
        Ok(u16::from_le_bytes(field))
    }

    // A number of four bytes, the low one first.
    pub fn four_bytes(&mut self) -> Result<u32, Fault>
        ensures { Took self.old self.old.part 4 accepted result self.new (λ n. (n ≡ four_at self.old.bytes.now self.old.at) × (bytes_at self.old.bytes.now self.old.at 4 ≡ four n)) }
    {
        let field = self.array()?;
        Ok(u32::from_le_bytes(field))
    }

    // The sheet ends here: 5 where bytes are left.
    pub fn end(&mut self) -> Result<(), Fault>
        ensures { Took self.old Part.End 0 (check (nat_le (length self.old.bytes.now) self.old.at) Refusal.TrailingBytes accepted) result self.new (λ _. self.old.at ≡ length self.old.bytes.now) }
    {
        self.enter(Part::End);
        if self.at < self.bytes.len() {
            return Err(self.fault(Refusal::TrailingBytes, self.at));
        }
        Ok(())
    }
}
