// A link fills the table.
ghost use Rattle.std.specs.Prelude.{◌≡◌, ◌+◌, ◌*◌, ◌<◌, ◌≤◌, true, List, [], ◌∷◌, ◌++◌, drop, ◌≢◌};
ghost use Rattle.weights.specs.Laws.{limit};
ghost use Rattle.cuts.specs.Kinds.{kind_of};
ghost use Rattle.cuts.specs.Links.{Link, Sound};
ghost use Rattle.tables.specs.Meaning.{HoldsIn, SameMemory};
ghost use Rattle.tables.specs.Sums.{Filling, Filled, FitsFilling};

use crate::table::Table;
use weights::weight::Weight;

impl<'a, W: Weight> Table<'a, W> {
    // A link in service between two units: their joint weight and both degrees grow by its weight.
    pub fn add_link(&mut self, a: usize, b: usize, weight: W)
        requires row { a < self.old.units }
        requires column { b < self.old.units }
        ensures memory { SameMemory self.old self.new }
        ensures holds { (ls : List (Link W.Weight.Value)) → (a ≢ b) → HoldsIn W.Weight ls [] self.old → Sound (kind_of W.Weight) self.old.units (ls ++ (record { first = a; second = b; in_service = true; weight = W.Weight.value weight } ∷ [])) → HoldsIn W.Weight (ls ++ (record { first = a; second = b; in_service = true; weight = W.Weight.value weight } ∷ [])) [] self.new }
        ensures rest { drop (self.old.units * self.old.units) self.new.weights.now ≡ drop (self.old.units * self.old.units) self.old.weights.now }
    {
        self.fill(a, b, weight);
    }

    // What `add_link` does, with what the table is filled with named, so that each sum can be shown not to be refused.
    fn fill(&mut self, a: usize, b: usize, weight: W)
        ghost filling: { Filling W }
        requires row { a < self.old.units }
        requires column { b < self.old.units }
        requires filling { filling ≡ (record { weights = self.old.weights.now; units = self.old.units; first = a; second = b; weight = weight }) }
        ensures memory { SameMemory self.old self.new }
        ensures holds { (a ≢ b) → Filled W.Weight filling self.new }
        ensures rest { drop (self.old.units * self.old.units) self.new.weights.now ≡ drop (self.old.units * self.old.units) self.old.weights.now }
    {
        let joint = sum_in_filling(self.entry(a, b), weight);
        let degree_a = sum_in_filling(self.entry(a, a), weight);
        let degree_b = sum_in_filling(self.entry(b, b), weight);
        self.set_joint(a, b, joint);
        self.set_entry(a, a, degree_a);
        self.set_entry(b, b, degree_b);
    }
}

// Two weights together as a link is added: their sum is not refused in any plan of the links so far and that one.
fn sum_in_filling<W: Weight>(a: W, b: W) -> W
    ghost filling: { Filling W }
    requires fits { FitsFilling W.Weight filling (W.Weight.value a) (W.Weight.value b) }
    ensures { W.Weight.size (W.Weight.value a) + W.Weight.size (W.Weight.value b) ≤ limit → W.Weight.value result ≡ W.Weight.plus (W.Weight.value a) (W.Weight.value b) }
{
    a.sum(b).unwrap_or(a)
}
