// The head of a sheet.
ghost use Rattle.std.specs.Prelude.{◌≡◌, ℕ, ◌≤◌, IfOk, MatchResult, ◌==◌, nat_le};
ghost use Rattle.plans.specs.Calls.{accepted, check, most_units, most_links};
ghost use Rattle.sheets.specs.Faults.{issue_verdict, magic_verdict};
ghost use Rattle.sheets.specs.Fields.{byte_at, bytes_at, head_fields, issue_from, two_at};
ghost use Rattle.sheets.specs.Format.{issue_number, magic, two};
ghost use Rattle.readers.specs.Records.{Headed, Reads};
ghost use Rattle.readers.specs.Steps.{Took};

use crate::cursor::Cursor;
use plans::plan::{LINKS, UNITS};
use refusals::Refusal;
use sheets::fault::{Fault, Part};
use sheets::head::MAGIC;
use sheets::issue::Issue;
use weights::weight::Weight;

// What the head tells: the issue, and how many units and links follow. It stands beside the cursor, which
// has to read it first.
#[derive(Clone, Copy)]
pub struct Head {
    pub issue: Issue,
    pub units: usize,
    pub links: usize,
}

// Reads the first three bytes of every sheet: 1.
fn read_magic(cursor: &mut Cursor) -> Result<(), Fault>
    ensures { Took cursor.old cursor.old.part 3 (magic_verdict (bytes_at cursor.old.bytes.now cursor.old.at 3)) result cursor.new (λ _. bytes_at cursor.old.bytes.now cursor.old.at 3 ≡ magic) }
{
    let place = cursor.place();
    if cursor.field(3)? != MAGIC.as_slice() {
        return Err(cursor.fault(Refusal::NotASheet, place));
    }
    Ok(())
}

// Reads the issue: 2 if it is neither 1 nor 2.
fn read_issue(cursor: &mut Cursor) -> Result<Issue, Fault>
    ensures { Took cursor.old cursor.old.part 2 (issue_verdict (two_at cursor.old.bytes.now cursor.old.at)) result cursor.new (λ i. (i ≡ issue_from (two_at cursor.old.bytes.now cursor.old.at)) × (bytes_at cursor.old.bytes.now cursor.old.at 2 ≡ two (issue_number i))) }
{
    let place = cursor.place();
    let number = cursor.two_bytes()?;
    cursor.judged(Issue::try_from(number), place)
}

// Reads the kind byte: 3 if it is not that of the weights.
fn read_kind<W: Weight>(cursor: &mut Cursor) -> Result<(), Fault>
    ensures { Took cursor.old cursor.old.part 1 (check (byte_at cursor.old.bytes.now cursor.old.at == W.Weight.KIND) Refusal.OtherKind accepted) result cursor.new (λ _. byte_at cursor.old.bytes.now cursor.old.at ≡ W.Weight.KIND) }
{
    let place = cursor.place();
    if cursor.byte()? != W::KIND {
        return Err(cursor.fault(Refusal::OtherKind, place));
    }
    Ok(())
}

// Reads the number of units: 6 above 64. Not one function with `read_links`: only the check of the limit is the same.
fn read_units(cursor: &mut Cursor) -> Result<usize, Fault>
    ensures { Took cursor.old cursor.old.part 1 (check (nat_le (byte_at cursor.old.bytes.now cursor.old.at) most_units) Refusal.Full accepted) result cursor.new (λ n. (n ≡ byte_at cursor.old.bytes.now cursor.old.at) × (n ≤ most_units)) }
{
    let place = cursor.place();
    let units = cursor.byte()? as usize;
    if units > UNITS {
        return Err(cursor.fault(Refusal::Full, place));
    }
    Ok(units)
}

// Reads the number of links: 6 above 512.
fn read_links(cursor: &mut Cursor) -> Result<usize, Fault>
    ensures { Took cursor.old cursor.old.part 2 (check (nat_le (two_at cursor.old.bytes.now cursor.old.at) most_links) Refusal.Full accepted) result cursor.new (λ n. (n ≡ two_at cursor.old.bytes.now cursor.old.at) × (bytes_at cursor.old.bytes.now cursor.old.at 2 ≡ two n) × (n ≤ most_links)) }
{
    let place = cursor.place();
    let links = cursor.two_bytes()? as usize;
    if links > LINKS {
        return Err(cursor.fault(Refusal::Full, place));
    }
    Ok(links)
}

// Reads the head of a sheet for the weight kind: 1, 2, 3, 6.
pub fn read_head<W: Weight>(cursor: &mut Cursor) -> Result<Head, Fault>
    ensures within { IfOk result (λ h. (h.units ≤ most_units) × (h.links ≤ most_links)) }
    ensures reads { cursor.old.at ≡ 0 → Reads W.Weight cursor.old.bytes.now head_fields result cursor.new 9 (Headed W.Weight cursor.old.bytes.now) }
{
    cursor.enter(Part::Head);
    read_magic(cursor)?;
    let issue = read_issue(cursor)?;
    read_kind::<W>(cursor)?;
    let units = read_units(cursor)?;
    let links = read_links(cursor)?;
    Ok(Head {
        issue,
        units,
        links,
    })
}
