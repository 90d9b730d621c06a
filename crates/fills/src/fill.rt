// Fills the weight table from a plan's links and a table of their marks.
ghost use Rattle.std.specs.Prelude.{◌≡◌, ◌*◌, ◌≤◌, [], length, drop};
ghost use Rattle.std.specs.List.{AllWithin};
ghost use Rattle.fills.specs.Served.{served};
ghost use Rattle.plans.specs.Calls.{most_total};
ghost use Rattle.plans.specs.Marks.{Shows};
ghost use Rattle.plans.specs.Model.{total_of};
ghost use Rattle.plans.specs.Sound.{Joins};
ghost use Rattle.tables.specs.Meaning.{HoldsIn, SameMemory};

use plans::plan::Link;
use tables::table::Table;
use weights::weight::Weight;

// Copies out the marks of links, 1 for in service and 0 for out.
pub fn copy_marks<W: Weight>(links: &[Link<W>], marks: &mut [u8])
    requires { length links.now ≤ length marks.old }
    ensures shows { Shows marks.new links.now }
    ensures rest { drop (length links.now) marks.new ≡ drop (length links.now) marks.old }
{
    // by number, as what a zip lends to be written is not known after the loop
    for (i, link) in links.iter().enumerate() {
        marks[i] = u8::from(link.in_service);
    }
}

// The table becomes that of the links whose mark, which stands beside them, is 1.
pub fn fill<W: Weight>(table: &mut Table<W>, links: &[Link<W>], marks: &[u8])
    requires marks { length links.now ≤ length marks.now }
    requires ends { AllWithin (Joins W.Weight table.old.units) links.now 0 (length links.now) }
    ensures memory { SameMemory table.old table.new }
    ensures holds { total_of W.Weight links.now ≤ most_total → HoldsIn W.Weight (served W.Weight marks.now links.now) [] table.new }
    ensures rest { drop (table.old.units * table.old.units) table.new.weights.now ≡ drop (table.old.units * table.old.units) table.old.weights.now }
{
    table.clear();
    for (link, mark) in links.iter().zip(marks) {
        if *mark != 1 {
            continue;
        }
        table.add_link(link.first as usize, link.second as usize, link.weight);
    }
}
