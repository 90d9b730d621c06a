// The lightest unit.
ghost use Rattle.std.specs.Prelude.{◌≡◌, ◌<◌, not, List, []};
ghost use Rattle.cuts.specs.Kinds.{kind_of};
ghost use Rattle.cuts.specs.Links.{Link};
ghost use Rattle.cuts.specs.Records.{Lightest};
ghost use Rattle.tables.specs.Meaning.{weight_of, Holds};

use crate::graph::Graph;
use weights::weight::Weight;

impl<'g, W: Weight> Graph<'g, W> {
    // The lightest unit, the lowest number among equals.
    pub fn lightest(&self) -> usize
        requires { 0 < self.now.groups.now.units }
        ensures unit { result < self.now.groups.now.units }
        ensures lightest { (ls : List (Link W.Weight.Value)) → Holds W.Weight self.now.groups.now.units ls [] self.now.weights.now → Lightest (kind_of W.Weight) self.now.groups.now.units ls result }
    {
        let units = self.units();
        let mut unit = 0;
        // The units' numbers are what is gone over: they are rows and columns of the table.
        for u in 1..units {
            if self.is_lighter(u, unit) {
                unit = u;
            }
        }
        unit
    }

    // Whether the degree of `a` is strictly less than that of `b`.
    fn is_lighter(&self, a: usize, b: usize) -> bool
        requires first { a < self.now.groups.now.units }
        requires second { b < self.now.groups.now.units }
        ensures { result ≡ not (W.Weight.le (weight_of W.Weight self.now b b) (weight_of W.Weight self.now a a)) }
    {
        !self.entry(b, b).at_most(self.entry(a, a))
    }
}
