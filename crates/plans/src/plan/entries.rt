// The calls that name units.
ghost use Rattle.std.specs.Prelude.{◌≡◌, ℕ, ◌+◌, ◌<◌, ◌≤◌, map, length, take, set};
ghost use Rattle.codes.specs.Held.{bytes_of};
ghost use Rattle.plans.specs.Calls.{Called, enter_verdict, recode_verdict};
ghost use Rattle.plans.specs.Model.{borne_by_other, code_of, entered, model_of, recoded};

use crate::plan::{Plan, UNITS, Unit};
use codes::code::FaultCode;
use refusals::Refusal;
use weights::weight::Weight;

// Whether one of the units, other than number `but`, bears the code.
pub fn is_borne(units: &[Unit], code: FaultCode, but: usize) -> bool
    ensures { result ≡ borne_by_other but (bytes_of code) (map code_of units.now) }
{
    units
        .iter()
        .enumerate()
        .any(|(k, unit)| k != but && unit.code == code)
}

// Gives one unit another code. A function over the table, since the rules want the one element lent mutably.
fn recode_at(units: &mut [Unit], k: usize, code: FaultCode)
    requires { k < length units.old }
    ensures { units.new ≡ set units.old k (record { code = code }) }
{
    let unit = &mut units[k];
    unit.code = code;
}

impl<'a, W: Weight> Plan<'a, W> {
    // Adds a unit with the given code and answers its number: 7, 8, 6.
    pub fn enter(&mut self, text: &[u8]) -> Result<usize, Refusal>
        ensures called { Called (enter_verdict (model_of self.old) text.now) (length (model_of self.old).codes) (entered text.now (model_of self.old)) self.old result self.new }
    {
        let code = FaultCode::parse(text)?;
        let at = self.unit_count;
        if is_borne(&self.units[..at], code, at) {
            return Err(Refusal::CodeTaken);
        }
        if at >= UNITS {
            return Err(Refusal::Full);
        }
        self.units[at] = Unit { code };
        self.unit_count = at + 1;
        Ok(at)
    }

    // Gives a unit another code: 9, 7, 8. It may keep its own.
    pub fn recode(&mut self, unit: usize, text: &[u8]) -> Result<(), Refusal>
        ensures called { Called (recode_verdict (model_of self.old) unit text.now) tt (recoded unit text.now (model_of self.old)) self.old result self.new }
    {
        let count = self.unit_count;
        if unit >= count {
            return Err(Refusal::NoSuchUnit);
        }
        let code = FaultCode::parse(text)?;
        if is_borne(&self.units[..count], code, unit) {
            return Err(Refusal::CodeTaken);
        }
        recode_at(&mut self.units, unit, code);
        Ok(())
    }
}
