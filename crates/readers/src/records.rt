// A link of a sheet.
ghost use Rattle.std.specs.Prelude.{◌≡◌, ℕ, ◌+◌, ◌*◌, ◌<◌, ◌≤◌, if◌then◌else◌, ◌≢◌, IfOk, nat_lt};
ghost use Rattle.plans.specs.Calls.{accepted, check, most_total};
ghost use Rattle.plans.specs.Model.{amount_of};
ghost use Rattle.plans.specs.Sound.{Joins};
ghost use Rattle.sheets.specs.Faults.{end_verdict, other_verdict};
ghost use Rattle.sheets.specs.Fields.{byte_at, link_fields, link_place, total_in, units_in};
ghost use Rattle.readers.specs.Records.{Linked, Reads};
ghost use Rattle.readers.specs.Steps.{Took};

use crate::cursor::Cursor;
use crate::parts::read_weight;
use plans::plan::Link;
use refusals::Refusal;
use sheets::fault::{Fault, Part};
use weights::weight::Weight;

// Reads a unit of a link: 9 if there is no such unit.
fn read_end(cursor: &mut Cursor, units: usize) -> Result<u8, Fault>
    ensures { Took cursor.old cursor.old.part 1 (end_verdict units (byte_at cursor.old.bytes.now cursor.old.at)) result cursor.new (λ n. (n ≡ byte_at cursor.old.bytes.now cursor.old.at) × (n < units)) }
{
    let place = cursor.place();
    let end = cursor.byte()?;
    if end as usize >= units {
        return Err(cursor.fault(Refusal::NoSuchUnit, place));
    }
    Ok(end)
}

// Reads the second unit: 9 if there is no such unit, 10 if it is the first one.
fn read_second(cursor: &mut Cursor, units: usize, first: u8) -> Result<u8, Fault>
    ensures { Took cursor.old cursor.old.part 1 (other_verdict units first (byte_at cursor.old.bytes.now cursor.old.at)) result cursor.new (λ n. (n ≡ byte_at cursor.old.bytes.now cursor.old.at) × (n < units) × (first ≢ n)) }
{
    let place = cursor.place();
    let second = read_end(cursor, units)?;
    if first == second {
        return Err(cursor.fault(Refusal::SelfLink, place));
    }
    Ok(second)
}

// Reads the mark: 14 if it is neither 0 nor 1.
fn read_mark(cursor: &mut Cursor) -> Result<bool, Fault>
    ensures { Took cursor.old cursor.old.part 1 (check (nat_lt (byte_at cursor.old.bytes.now cursor.old.at) 2) Refusal.BadMark accepted) result cursor.new (λ b. (if b then 1 else 0) ≡ byte_at cursor.old.bytes.now cursor.old.at) }
{
    let place = cursor.place();
    match cursor.byte()? {
        0 => Ok(false),
        1 => Ok(true),
        _ => Err(cursor.fault(Refusal::BadMark, place)),
    }
}

// Reads link `k` between the sheet's units: 9, 10, 14, 11, 12. The amounts of the links before it come to `total`. Each
// in a parameter of its own: the units are the head's, and `k` and `total` go up with each link.
pub fn read_link<W: Weight>(
    cursor: &mut Cursor,
    units: usize,
    k: usize,
    total: u32,
) -> Result<Link<W>, Fault>
    requires { total ≤ most_total }
    ensures joins { IfOk result (λ l. Joins W.Weight units l × (total + amount_of W.Weight l.weight ≤ most_total)) }
    ensures reads { cursor.old.at ≡ link_place W.Weight cursor.old.bytes.now k → units ≡ units_in cursor.old.bytes.now → total ≡ total_in W.Weight cursor.old.bytes.now k → Reads W.Weight cursor.old.bytes.now (link_fields W.Weight cursor.old.bytes.now k) result cursor.new (link_place W.Weight cursor.old.bytes.now (k + 1)) (Linked W.Weight cursor.old.bytes.now k) }
{
    cursor.enter(Part::Link(k));
    let first = read_end(cursor, units)?;
    let second = read_second(cursor, units, first)?;
    let in_service = read_mark(cursor)?;
    let weight = read_weight(cursor, total)?;
    Ok(Link {
        first,
        second,
        in_service,
        weight,
    })
}
