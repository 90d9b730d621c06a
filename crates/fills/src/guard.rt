// A link's mark that is put out while the weight table is filled, and then put back.
ghost use Rattle.std.specs.Prelude.{◌≡◌, ◌*◌, ◌<◌, ◌≤◌, [], length, drop, slice_set};
ghost use Rattle.std.specs.List.{AllWithin};
ghost use Rattle.fills.specs.Served.{served};
ghost use Rattle.plans.specs.Calls.{most_total};
ghost use Rattle.plans.specs.Model.{total_of};
ghost use Rattle.plans.specs.Sound.{Joins};
ghost use Rattle.tables.specs.Meaning.{HoldsIn, SameMemory};

use crate::fill::fill;
use plans::plan::Link;
use tables::table::Table;
use weights::weight::Weight;

// The lent marks, the index of the one that is out, and what it was.
pub struct MarkGuard<'a> {
    marks: &'a mut [u8],
    index: usize,
    old: u8,
}

impl Drop for MarkGuard<'_> {
    fn drop(self)
        requires { self.index < length self.marks.now }
        ensures { self.exit.0.now ≡ slice_set self.entry.marks.now self.entry.index self.entry.old }
    {
        self.marks[self.index] = self.old;
        let MarkGuard {
            marks: _,
            index: _,
            old: _,
        } = self;
    }
}

impl<'a> MarkGuard<'a> {
    // The marks as they stand now; lent as the guard's field alone, they would not be known where it is dropped.
    fn marks(&self) -> &[u8]
        ensures { result.now ≡ self.now.marks.now }
    {
        self.marks
    }
}

// The table becomes that of the links with one of them out of service, whatever its mark; the marks end as they were.
pub fn fill_without<W: Weight>(
    table: &mut Table<W>,
    links: &[Link<W>],
    marks: &mut [u8],
    index: usize,
)
    requires marks { length links.now ≤ length marks.old }
    requires ends { AllWithin (Joins W.Weight table.old.units) links.now 0 (length links.now) }
    requires index { index < length marks.old }
    ensures same { marks.new ≡ marks.old }
    ensures memory { SameMemory table.old table.new }
    ensures holds { total_of W.Weight links.now ≤ most_total → HoldsIn W.Weight (served W.Weight (slice_set marks.old index 0) links.now) [] table.new }
    ensures rest { drop (table.old.units * table.old.units) table.new.weights.now ≡ drop (table.old.units * table.old.units) table.old.weights.now }
{
    let old = marks[index];
    let guard = MarkGuard { marks, index, old };
    guard.marks[index] = 0;
    fill(table, links, guard.marks())
}
