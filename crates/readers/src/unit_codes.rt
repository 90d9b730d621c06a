// The codes of a sheet's units.
ghost use Rattle.std.specs.Prelude.{◌≡◌, ℕ, ◌<◌, ◌≤◌, map, length, take};
ghost use Rattle.codes.specs.Held.{bytes_of};
ghost use Rattle.plans.specs.Model.{code_of};
ghost use Rattle.sheets.specs.Faults.{code_verdict};
ghost use Rattle.sheets.specs.Fields.{bytes_at, code_fields, code_place, issue_in, text_of, texts_in, units_in};
ghost use Rattle.sheets.specs.Format.{size_of_code};
ghost use Rattle.readers.specs.Records.{Reads};
ghost use Rattle.readers.specs.Steps.{Took};

use crate::cursor::Cursor;
use crate::head::Head;
use codes::code::FaultCode;
use plans::plan::Unit;
use plans::plan::entries::is_borne;
use refusals::Refusal;
use sheets::fault::{Fault, Part};
use sheets::issue::Issue;
use weights::weight::Weight;

// The characters in a code's field: in issue 2 a code of six ends in a zero byte.
fn characters(issue: Issue, field: &[u8]) -> &[u8]
    requires { length field.now ≡ size_of_code issue }
    ensures { result.now ≡ text_of issue field.now }
{
    match (issue, field) {
        (Issue::Second, [rest @ .., 0]) => rest,
        _ => field,
    }
}

// Reads the code of the unit that follows those read earlier: 7 if it is none, 8 if one of these bears it.
pub fn read_code(cursor: &mut Cursor, issue: Issue, earlier: &[Unit]) -> Result<FaultCode, Fault>
    ensures { Took cursor.old (Part.Unit (length earlier.now)) (size_of_code issue) (code_verdict (length earlier.now) (text_of issue (bytes_at cursor.old.bytes.now cursor.old.at (size_of_code issue))) (map code_of earlier.now)) result cursor.new (λ c. bytes_of c ≡ text_of issue (bytes_at cursor.old.bytes.now cursor.old.at (size_of_code issue))) }
{
    let k = earlier.len();
    cursor.enter(Part::Unit(k));
    let place = cursor.place();
    let field = cursor.field(issue.code_size())?;
    let code = cursor.judged(FaultCode::parse(characters(issue, field)), place)?;
    if is_borne(earlier, code, k) {
        return Err(cursor.fault(Refusal::CodeTaken, place));
    }
    Ok(code)
}

// Reads the codes of all units of a sheet with links of the weight kind: 7, 8.
pub fn read_codes<W: Weight>(
    cursor: &mut Cursor,
    head: Head,
    units: &mut [Unit],
) -> Result<(), Fault>
    requires room { head.units ≤ length units.old }
    requires place { cursor.old.at ≡ 9 }
    requires issue { head.issue ≡ issue_in cursor.old.bytes.now }
    requires count { head.units ≡ units_in cursor.old.bytes.now }
    ensures { Reads W.Weight cursor.old.bytes.now (code_fields (units_in cursor.old.bytes.now)) result cursor.new (code_place cursor.old.bytes.now (units_in cursor.old.bytes.now)) (λ _. map code_of (take (units_in cursor.old.bytes.now) units.new) ≡ texts_in cursor.old.bytes.now (units_in cursor.old.bytes.now)) }
{
    // By index, since the codes before a unit's own are read from the table that it is written to.
    for k in 0..head.units {
        let code = read_code(cursor, head.issue, &units[..k])?;
        units[k] = Unit { code };
    }
    Ok(())
}
