// Makes the plan of a sheet that is known to be right.
ghost use Rattle.std.specs.Prelude.{◌≡◌, ℕ, ◌+◌, ◌<◌, ◌≤◌, [], map, length};
ghost use Rattle.plans.specs.Calls.{most_links, most_total, most_units};
ghost use Rattle.plans.specs.Model.{amount_of, code_of, linked, model_of, total_of};
ghost use Rattle.plans.specs.Sound.{Joins};
ghost use Rattle.sheets.specs.Faults.{Faultless};
ghost use Rattle.sheets.specs.Fields.{code_place, link_fields, links_in, through, units_in};
ghost use Rattle.readers.specs.Loads.{Apart, Loaded};

use crate::cursor::Cursor;
use crate::head::Head;
use crate::records::read_link;
use plans::plan::{Link, Plan, Unit};
use weights::weight::Weight;

// A plan with these units, which bear different codes, and no links.
pub fn load_units<W: Weight>(units: &[Unit], plan: &mut Plan<W>)
    requires few { length units.now ≤ most_units }
    requires apart { Apart (map code_of units.now) }
    ensures { model_of plan.new ≡ record { codes = map code_of units.now; links = [] } }
{
    plan.clear();
    for unit in units {
        plan.enter(unit.code.text()).unwrap();
    }
}

// Adds a link that the plan has room for, in service or out.
fn load_link<W: Weight>(plan: &mut Plan<W>, link: Link<W>)
    requires joins { Joins W.Weight (length (model_of plan.old).codes) link }
    requires room { length (model_of plan.old).links < most_links }
    requires limit { total_of W.Weight (model_of plan.old).links + amount_of W.Weight link.weight ≤ most_total }
    ensures { model_of plan.new ≡ linked link (model_of plan.old) }
{
    let at = plan
        .link(link.first as usize, link.second as usize, link.weight)
        .unwrap();
    if !link.in_service {
        plan.mark(at, 0).unwrap();
    }
}

// Adds all links of a sheet whose links have no fault to a plan that has its units and no links.
pub fn load_links<W: Weight>(cursor: &mut Cursor, head: Head, plan: &mut Plan<W>)
    requires place { cursor.old.at ≡ code_place cursor.old.bytes.now (units_in cursor.old.bytes.now) }
    requires units { head.units ≡ units_in cursor.old.bytes.now }
    requires links { head.links ≡ links_in cursor.old.bytes.now }
    requires short { head.links ≤ most_links }
    requires clear { Faultless W.Weight cursor.old.bytes.now (through (link_fields W.Weight cursor.old.bytes.now) (links_in cursor.old.bytes.now)) }
    requires codes { length (model_of plan.old).codes ≡ units_in cursor.old.bytes.now }
    requires none { (model_of plan.old).links ≡ [] }
    ensures { Loaded W.Weight cursor.old.bytes.now (model_of plan.old) (model_of plan.new) }
{
    // The same loop as in `check_links`, which adds nothing yet: a later link may have a fault.
    let mut total = 0;
    for k in 0..head.links {
        let link = read_link::<W>(cursor, head.units, k, total).unwrap();
        load_link(plan, link);
        total += link.weight.amount();
    }
}
