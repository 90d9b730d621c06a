// Reads a whole sheet into a plan.
ghost use Rattle.std.specs.Prelude.{◌≡◌, ℕ, ◌<◌, ◌≤◌, [], ◌∷◌, ◌++◌, length};
ghost use Rattle.sheets.specs.Fields.{code_place, end, link_fields, link_place, links_in, through, units_in};
ghost use Rattle.readers.specs.Outcome.{Outcome};
ghost use Rattle.readers.specs.Records.{Reads};

use crate::cursor::Cursor;
use crate::head::{Head, read_head};
use crate::load::{load_links, load_units};
use crate::records::read_link;
use crate::unit_codes::read_codes;
use codes::code::FaultCode;
use plans::plan::{Plan, UNITS, Unit};
use sheets::fault::Fault;
use weights::weight::Weight;

// Goes through the links of a sheet, to its end: 9, 10, 14, 11, 12, and 5 where bytes are left.
fn check_links<W: Weight>(cursor: &mut Cursor, head: Head) -> Result<(), Fault>
    requires place { cursor.old.at ≡ code_place cursor.old.bytes.now (units_in cursor.old.bytes.now) }
    requires units { head.units ≡ units_in cursor.old.bytes.now }
    requires links { head.links ≡ links_in cursor.old.bytes.now }
    ensures { Reads W.Weight cursor.old.bytes.now (through (link_fields W.Weight cursor.old.bytes.now) (links_in cursor.old.bytes.now) ++ (end ∷ [])) result cursor.new (length cursor.old.bytes.now) (λ _. link_place W.Weight cursor.old.bytes.now (links_in cursor.old.bytes.now) ≡ length cursor.old.bytes.now) }
{
    let mut total = 0;
    for k in 0..head.links {
        let link = read_link::<W>(cursor, head.units, k, total)?;
        total += link.weight.amount();
    }
    cursor.end()
}

// Replaces the whole plan by that of the sheet, or tells the first fault in the order of the bytes and changes nothing.
pub fn read<W: Weight>(bytes: &[u8], plan: &mut Plan<W>) -> Result<(), Fault>
    ensures { Outcome W.Weight bytes.now plan.old result plan.new }
{
    let mut cursor = Cursor::new(bytes);
    let head = read_head::<W>(&mut cursor)?;
    let blank = Unit {
        code: FaultCode::blank(),
    };
    // No heap: memory for as many units as a plan may have. The head tells how many are read.
    let mut units = [blank; UNITS];
    read_codes::<W>(&mut cursor, head, &mut units)?;
    let mut links = cursor;
    check_links::<W>(&mut cursor, head)?;
    load_units(&units[..head.units], plan);
    load_links(&mut links, head, plan);
    Ok(())
}
