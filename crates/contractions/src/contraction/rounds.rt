// The rounds of the work.
ghost use Rattle.std.specs.Prelude.{◌≡◌, ℕ, ◌+◌, ◌<◌, ◌≤◌, true, false, List};
ghost use Rattle.cuts.specs.Kinds.{kind_of};
ghost use Rattle.cuts.specs.Links.{Link};
ghost use Rattle.cuts.specs.Records.{ended, merge_found, Point, Work};
ghost use Rattle.contractions.specs.Working.{GoneOn, IsAt};
ghost use Rattle.queues.specs.Keys.{Empty};
ghost use Rattle.scans.specs.Scanned.{pairs_of};

use crate::contraction::Contraction;
use crate::contraction::mergers::merger_of;
use cuts::ground::Ground;
use passes::pairs::first_pair;
use queues::queue::PriorityQueue;
use scans::found::Found;
use scans::scan::scan;
use weights::weight::Weight;

impl<'t, 'm, 'e, W: Weight> Contraction<'t, 'm, 'e, W> {
    // Merges the pairs that a scan found, in the order found, while work goes on.
    fn merge_found(&mut self, found: &Found, mut best: W) -> W
        requires { found.now.classes.units ≡ self.old.groups.units }
        ensures on { GoneOn self.old self.new }
        ensures scans { self.new.scans ≡ self.old.scans }
        ensures at { (n : ℕ) (ls : List (Link W.Weight.Value)) (p : Point) → IsAt W.Weight n ls p self.old best → IsAt W.Weight n ls (merge_found (kind_of W.Weight) n ls (pairs_of found.now) p) self.new result }
    {
        for &(first, second) in found.pairs() {
            if !self.goes_on(best) {
                break;
            }
            let a = self.groups.of(first);
            let b = self.groups.of(second);
            if a == b {
                continue;
            }
            best = self.merge(merger_of(a, b, Ground::Scan, self.scans), best);
        }
        best
    }

    // One round: the first pair that meets a test is merged, or else the pairs that a scan finds.
    fn round<Q: PriorityQueue<Weight = W>>(&mut self, queue: &mut Q, best: W) -> W
        requires sound { Q.PriorityQueue.sound queue.old }
        requires left { 0 < self.old.groups.left }
        requires scans { self.old.scans < 64 }
        ensures sound { Q.PriorityQueue.sound queue.new }
        ensures on { GoneOn self.old self.new }
        ensures scans { self.new.scans ≤ self.old.scans + 1 }
        ensures at { (n : ℕ) (ls : List (Link W.Weight.Value)) (p : Point) → IsAt W.Weight n ls p self.old best → Work (kind_of W.Weight) n ls p → ended (kind_of W.Weight) n ls p ≡ false → (q : Point) × IsAt W.Weight n ls q self.new result × Work (kind_of W.Weight) n ls q × (self.old.mergers < self.new.mergers) }
        ensures unscanned { self.new.scans ≡ self.old.scans → queue.new ≡ queue.old }
        ensures scanned { self.old.scans < self.new.scans → Empty (Q.PriorityQueue.key queue.new) }
    {
        let graph = self.graph();
        match first_pair(&graph, best) {
            Some((u, v, ground)) => self.merge(merger_of(u, v, ground, 0), best),
            None => {
                let found = scan(queue, &graph, best);
                self.scans += 1;
                self.merge_found(&found, best)
            }
        }
    }

    // Round after round, while work goes on.
    pub fn run<Q: PriorityQueue<Weight = W>>(&mut self, queue: &mut Q, mut best: W) -> W
        requires sound { Q.PriorityQueue.sound queue.old }
        requires scans { self.old.scans ≡ 0 }
        ensures sound { Q.PriorityQueue.sound queue.new }
        ensures on { GoneOn self.old self.new }
        ensures at { (n : ℕ) (ls : List (Link W.Weight.Value)) (p : Point) → IsAt W.Weight n ls p self.old best → Work (kind_of W.Weight) n ls p → (q : Point) × IsAt W.Weight n ls q self.new result × Work (kind_of W.Weight) n ls q × (ended (kind_of W.Weight) n ls q ≡ true) }
        ensures unscanned { self.new.scans ≡ 0 → queue.new ≡ queue.old }
        ensures scanned { 0 < self.new.scans → Empty (Q.PriorityQueue.key queue.new) }
    {
        // As many rounds as units are enough: each merges a pair, where the table is that of a plan.
        for _round in 0..self.groups.units() {
            if !self.goes_on(best) {
                break;
            }
            best = self.round(queue, best);
        }
        best
    }
}
