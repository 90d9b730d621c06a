// How the work begins, and how it ends.
ghost use Rattle.std.specs.Prelude.{◌≡◌, ℕ, ◌<◌, true, List, [], take};
ghost use Rattle.cuts.specs.Kinds.{kind_of};
ghost use Rattle.cuts.specs.Links.{Link, Sound};
ghost use Rattle.cuts.specs.Outcomes.{Outcome};
ghost use Rattle.cuts.specs.Records.{ended, Point, Work};
ghost use Rattle.contractions.specs.Working.{IsAt, OnlyMarks};
ghost use Rattle.tables.specs.Meaning.{Holds, Tracks};

use crate::contraction::Contraction;
use crate::marking::{mark_group, turn_over};
use crate::progress::Progress;
use weights::weight::Weight;

impl<'t, 'm, 'e, W: Weight> Contraction<'t, 'm, 'e, W> {
    // The lightest unit becomes best, and is marked.
    pub fn begin(&mut self) -> W
        requires { 0 < self.old.groups.units }
        ensures only { OnlyMarks self.old self.new }
        ensures at { (n : ℕ) (ls : List (Link W.Weight.Value)) → Sound (kind_of W.Weight) n ls → Holds W.Weight n ls [] self.old.weights.now → Tracks n [] self.old.groups → self.old.mergers ≡ 0 → self.old.scans ≡ 0 → (p : Point) × IsAt W.Weight n ls p self.new result × Work (kind_of W.Weight) n ls p }
    {
        let unit = self.graph().lightest();
        mark_group(&self.groups, unit, self.marks);
        self.graph().entry(unit, unit)
    }

    // Turns the marks over where unit 0 is marked, and tells how far the work has come.
    pub fn finish(&mut self, best: W) -> Progress<W>
        requires { 0 < self.old.groups.units }
        ensures only { OnlyMarks self.old self.new }
        ensures mergers { result.mergers ≡ self.new.mergers }
        ensures scans { result.scans ≡ self.new.scans }
        ensures outcome { (n : ℕ) (ls : List (Link W.Weight.Value)) (p : Point) → IsAt W.Weight n ls p self.old best → Work (kind_of W.Weight) n ls p → ended (kind_of W.Weight) n ls p ≡ true → Outcome (kind_of W.Weight) n ls (W.Weight.value result.best) self.new.marks.now (take result.mergers self.new.entries.now) result.scans }
    {
        let units = self.groups.units();
        turn_over(&mut self.marks[..units]);
        Progress {
            best,
            mergers: self.mergers,
            scans: self.scans,
        }
    }
}
