// Single entries of the table, and the table of no links.
ghost use Rattle.std.specs.Prelude.{◌≡◌, ℕ, ◌+◌, ◌*◌, ◌<◌, ◌≤◌, [], length, drop, slice_index_or, slice_set};
ghost use Rattle.tables.specs.Meaning.{entry_of, value_at, HoldsIn, SameMemory};

use crate::table::Table;
use weights::weight::Weight;

impl<'a, W: Weight> Table<'a, W> {
    // A table over lent memory, whose entries are what lies there.
    pub fn over(weights: &'a mut [W], units: usize) -> Table<'a, W>
        requires few { units ≤ 64 }
        requires room { units * units ≤ length weights.old }
        ensures units { result.units ≡ units }
        ensures entries { result.weights.now ≡ weights.old }
        ensures memory { result.weights.ghost_name ≡ weights.entry.ghost_name }
    {
        Table { weights, units }
    }

    // How many units, and so rows and columns, there are.
    pub fn units(&self) -> usize
        ensures { result ≡ self.now.units }
    {
        self.units
    }

    // The entry of a row and a column.
    pub fn entry(&self, row: usize, column: usize) -> W
        requires row { row < self.now.units }
        requires column { column < self.now.units }
        ensures value { W.Weight.value result ≡ entry_of W.Weight self.now row column }
        ensures cell { result ≡ slice_index_or self.now.weights.now (row * self.now.units + column) result }
    {
        self.weights[row * self.units + column]
    }

    // Writes the entry of a row and a column.
    pub fn set_entry(&mut self, row: usize, column: usize, weight: W)
        requires row { row < self.old.units }
        requires column { column < self.old.units }
        ensures memory { SameMemory self.old self.new }
        ensures written { self.new.weights.now ≡ slice_set self.old.weights.now (row * self.old.units + column) weight }
    {
        self.weights[row * self.units + column] = weight;
    }

    // Writes the entry of two groups, which is the same both ways.
    pub fn set_joint(&mut self, a: usize, b: usize, weight: W)
        requires row { a < self.old.units }
        requires column { b < self.old.units }
        ensures memory { SameMemory self.old self.new }
        ensures written { self.new.weights.now ≡ slice_set (slice_set self.old.weights.now (a * self.old.units + b) weight) (b * self.old.units + a) weight }
    {
        self.set_entry(a, b, weight);
        self.set_entry(b, a, weight);
    }

    // Makes it the table of no links; what lies past it in memory stays.
    pub fn clear(&mut self)
        ensures memory { SameMemory self.old self.new }
        ensures nothing { (i : ℕ) → i < self.old.units * self.old.units → value_at W.Weight self.new.weights.now i ≡ W.Weight.zero }
        ensures holds { HoldsIn W.Weight [] [] self.new }
        ensures rest { drop (self.old.units * self.old.units) self.new.weights.now ≡ drop (self.old.units * self.old.units) self.old.weights.now }
    {
        let entries = self.units * self.units;
        blank(&mut self.weights[0..entries]);
    }
}

// All entries become nothing.
pub fn blank<W: Weight>(entries: &mut [W])
    ensures length { length entries.new ≡ length entries.old }
    ensures nothing { (i : ℕ) → i < length entries.old → value_at W.Weight entries.new i ≡ W.Weight.zero }
{
    // not by `fill`, which clones its value: no law of a kind of weights speaks of a clone
    for entry in entries {
        *entry = W::nothing();
    }
}
