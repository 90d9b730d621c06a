// A merger of two groups adds up their rows.
ghost use Rattle.std.specs.Prelude.{◌≡◌, ◌+◌, ◌*◌, ◌<◌, ◌≤◌, true, List, [], ◌∷◌, ◌++◌, drop};
ghost use Rattle.weights.specs.Laws.{limit};
ghost use Rattle.cuts.specs.declared.entry.Entry.{Entry};
ghost use Rattle.cuts.specs.Groups.{stands};
ghost use Rattle.cuts.specs.Links.{Link};
ghost use Rattle.tables.specs.Meaning.{Explains, HoldsIn, SameMemory};
ghost use Rattle.tables.specs.Sums.{Merger, Merged, FitsMerger};

use crate::groups::Groups;
use crate::table::Table;
use weights::weight::Weight;

impl<'a, W: Weight> Table<'a, W> {
    // Adds the row of `high` to that of `low`; the degree of `low` becomes that of both.
    pub fn merge_rows(&mut self, low: usize, high: usize, groups: &Groups)
        requires units { groups.now.units ≡ self.old.units }
        requires low { low < self.old.units }
        requires high { high < self.old.units }
        ensures memory { SameMemory self.old self.new }
        ensures holds { (ls : List (Link W.Weight.Value)) (es : List Entry) (e : Entry) → Explains W.Weight self.old.units ls es self.old.weights.now groups.now → stands self.old.units es low ≡ true → stands self.old.units es high ≡ true → low < high → e.low ≡ low → e.high ≡ high → HoldsIn W.Weight ls (es ++ (e ∷ [])) self.new }
        ensures rest { drop (self.old.units * self.old.units) self.new.weights.now ≡ drop (self.old.units * self.old.units) self.old.weights.now }
    {
        self.merge(low, high, groups);
    }

    // What `merge_rows` does, with what the merger begins with named, so that each sum can be shown not to be refused.
    fn merge(&mut self, low: usize, high: usize, groups: &Groups)
        ghost merger: { Merger W }
        requires units { groups.now.units ≡ self.old.units }
        requires low { low < self.old.units }
        requires high { high < self.old.units }
        requires merger { merger ≡ (record { weights = self.old.weights.now; units = self.old.units; groups = groups.now; low = low; high = high }) }
        ensures memory { SameMemory self.old self.new }
        ensures holds { Merged W.Weight merger self.new }
        ensures rest { drop (self.old.units * self.old.units) self.new.weights.now ≡ drop (self.old.units * self.old.units) self.old.weights.now }
    {
        let mut degree = W::nothing();
        // The groups' numbers are what is gone over: they are rows and columns of the table.
        for w in 0..self.units {
            if !groups.is_third(low, high, w) {
                continue;
            }
            let both = sum_in_merger(self.entry(low, w), self.entry(high, w));
            self.set_joint(low, w, both);
            degree = sum_in_merger(degree, both);
        }
        self.set_entry(low, low, degree);
    }
}

// Two weights of a merger together: their sum is not refused in any plan that explains what the merger begins with.
fn sum_in_merger<W: Weight>(a: W, b: W) -> W
    ghost merger: { Merger W }
    requires fits { FitsMerger W.Weight merger (W.Weight.value a) (W.Weight.value b) }
    ensures { W.Weight.size (W.Weight.value a) + W.Weight.size (W.Weight.value b) ≤ limit → W.Weight.value result ≡ W.Weight.plus (W.Weight.value a) (W.Weight.value b) }
{
    a.sum(b).unwrap_or(a)
}
