// A merger of two groups.
ghost use Rattle.std.specs.Prelude.{◌≡◌, ℕ, ◌+◌, ◌<◌, ◌≤◌, true, false, not, List, nat_eq, slice_index};
ghost use Rattle.cuts.specs.Groups.{stands};
ghost use Rattle.cuts.specs.Kinds.{kind_of};
ghost use Rattle.cuts.specs.Links.{Link};
ghost use Rattle.cuts.specs.Records.{ended, merge as mergeAt, merger as entry_of, Point};
ghost use Rattle.contractions.specs.Progress.{Marks};
ghost use Rattle.contractions.specs.Working.{GoneOn, IsAt, OnlyMarks};
ghost use Rattle.tables.specs.Meaning.{at};

use crate::contraction::Contraction;
use crate::marking::mark_group;
use cuts::entry::Entry;
use cuts::ground::Ground;
use tables::graph::Graph;
use tables::table::Table;
use weights::weight::Weight;

impl<'t, 'm, 'e, W: Weight> Contraction<'t, 'm, 'e, W> {
    // The weights with the groups that they are between.
    pub fn graph(&self) -> Graph<'_, W>
        ensures weights { result.weights.now ≡ self.now.weights.now }
        ensures groups { result.groups.now ≡ self.now.groups }
    {
        Graph::over(self.weights, &self.groups)
    }

    // Whether work goes on: more than two groups are left, and best is above nothing.
    pub fn goes_on(&self, best: W) -> bool
        ensures left { result ≡ true → 2 < self.now.groups.left }
        ensures over { (n : ℕ) (ls : List (Link W.Weight.Value)) (p : Point) → IsAt W.Weight n ls p self.now best → ended (kind_of W.Weight) n ls p ≡ not result }
    {
        self.groups.left() > 2 && !best.at_most(W::nothing())
    }

    // A group strictly lighter than best becomes best, and its units are marked.
    fn note_best(&mut self, group: usize, best: W) -> W
        requires { group < self.old.groups.units }
        ensures only { OnlyMarks self.old self.new }
        ensures kept { W.Weight.le (W.Weight.value best) (at W.Weight self.new.weights.now self.new.groups.units group group) ≡ true → (result ≡ best) × (self.new.marks.now ≡ self.old.marks.now) }
        ensures lighter { W.Weight.le (W.Weight.value best) (at W.Weight self.new.weights.now self.new.groups.units group group) ≡ false → (W.Weight.value result ≡ at W.Weight self.new.weights.now self.new.groups.units group group) × Marks self.new.groups.units (λ x. nat_eq (slice_index self.new.groups.names x) group) self.new.marks.now }
    {
        let degree = self.graph().entry(group, group);
        if best.at_most(degree) {
            return best;
        }
        mark_group(&self.groups, group, self.marks);
        degree
    }

    // Merges the two groups of an entry and writes it. The merged group becomes best if its degree is strictly lighter.
    pub fn merge(&mut self, merger: Entry, best: W) -> W
        requires left { 0 < self.old.groups.left }
        requires low { merger.low < self.old.groups.units }
        requires high { merger.high < self.old.groups.units }
        ensures on { GoneOn self.old self.new }
        ensures mergers { self.new.mergers ≡ self.old.mergers + 1 }
        ensures scans { self.new.scans ≡ self.old.scans }
        ensures at { (n : ℕ) (ls : List (Link W.Weight.Value)) (p : Point) → IsAt W.Weight n ls p self.old best → stands n p.done merger.low ≡ true → stands n p.done merger.high ≡ true → merger.low < merger.high → IsAt W.Weight n ls (mergeAt (kind_of W.Weight) n ls p merger) self.new result }
    {
        let low = merger.low as usize;
        let high = merger.high as usize;
        let groups = &self.groups;
        // borrowed by a name first, as what a table leaves of a field that is lent to it is not known
        let weights = &mut *self.weights;
        Table::over(weights, groups.units()).merge_rows(low, high, groups);
        self.entries[self.mergers] = merger;
        self.mergers += 1;
        self.groups.join(low, high);
        self.note_best(low, best)
    }
}

// The entry of a merger of two groups, the lower one first.
pub fn merger_of(a: usize, b: usize, ground: Ground, scan: usize) -> Entry
    requires { (a < 64) × ((b < 64) × (scan ≤ 64)) }
    ensures { result ≡ entry_of a b ground scan }
{
    Entry {
        low: a.min(b) as u8,
        high: a.max(b) as u8,
        ground,
        scan: scan as u8,
    }
}
