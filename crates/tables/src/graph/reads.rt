// What is read of weights and groups.
ghost use Rattle.std.specs.Prelude.{◌≡◌, ◌+◌, ◌*◌, ◌<◌, ◌≤◌, false, not, ◌&&◌, ◌||◌, ◌==◌, length, slice_index_or};
ghost use Rattle.tables.specs.Meaning.{weight_of};

use crate::graph::Graph;
use crate::groups::Groups;
use weights::weight::Weight;

impl<'g, W: Weight> Graph<'g, W> {
    // The view of weights, row after row, and of the groups that the rows belong to.
    pub fn over(weights: &'g [W], groups: &'g Groups) -> Graph<'g, W>
        requires { groups.now.units * groups.now.units ≤ length weights.now }
        ensures weights { result.weights.now ≡ weights.now }
        ensures groups { result.groups.now ≡ groups.now }
    {
        Graph { weights, groups }
    }

    // How many units, and so rows and columns, there are.
    pub fn units(&self) -> usize
        ensures { result ≡ self.now.groups.now.units }
    {
        self.groups.units()
    }

    // Whether a group stands.
    pub fn stands(&self, group: usize) -> bool
        requires { group < self.now.groups.now.units }
        ensures { result ≡ slice_index_or self.now.groups.now.standing group false }
    {
        self.groups.stands(group)
    }

    // Whether a group stands and is neither of a pair.
    pub fn is_third(&self, u: usize, v: usize, w: usize) -> bool
        requires { w < self.now.groups.now.units }
        ensures { result ≡ (slice_index_or self.now.groups.now.standing w false && not (w == u || w == v)) }
    {
        self.groups.is_third(u, v, w)
    }

    // The entry of a row and a column. Read here too, and not only of a `Table`, as the weights of a
    // view need not lie in one.
    pub fn entry(&self, row: usize, column: usize) -> W
        requires row { row < self.now.groups.now.units }
        requires column { column < self.now.groups.now.units }
        ensures value { W.Weight.value result ≡ weight_of W.Weight self.now row column }
        ensures cell { result ≡ slice_index_or self.now.weights.now (row * self.now.groups.now.units + column) result }
    {
        self.weights[row * self.units() + column]
    }
}
