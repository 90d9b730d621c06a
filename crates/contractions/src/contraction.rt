// The work itself: pairs of groups are merged until two are left or best is nothing.
ghost use Rattle.std.specs.Prelude.{◌≡◌, ℕ, ◌+◌, ◌*◌, ◌<◌, ◌≤◌, List, [], length, take};
ghost use Rattle.cuts.specs.Kinds.{kind_of};
ghost use Rattle.cuts.specs.Links.{Link, Sound};
ghost use Rattle.cuts.specs.Outcomes.{Outcome};
ghost use Rattle.contractions.specs.Progress.{Room, Spared};
ghost use Rattle.queues.specs.Keys.{Empty};
ghost use Rattle.tables.specs.Meaning.{Holds};

mod ends;
mod mergers;
mod rounds;

use crate::progress::Progress;
use cuts::entry::Entry;
use queues::queue::PriorityQueue;
use tables::groups::Groups;
use weights::weight::Weight;

// No heap: weights, marks and record lie in lent memory, and what lies past the units and the mergers is
// left alone. The lightest degree so far is passed in and answered beside it: with a weight for a field,
// nothing would be known of the lent memory once the struct is gone.
#[derive(Drop)]
struct Contraction<'t, 'm, 'e, W> {
    weights: &'t mut [W],
    groups: Groups,
    // the units of the group that is best
    marks: &'m mut [u8],
    // the record: an entry for each merger
    entries: &'e mut [Entry],
    mergers: usize,
    scans: usize,
    ghost weighed: { groups.units * groups.units ≤ length weights.now },
    ghost marked: { groups.units ≤ length marks.now },
    ghost recorded: { groups.units ≤ length entries.now },
    ghost counted: { mergers + groups.left ≡ groups.units },
    ghost looked: { scans ≤ 64 },
}

// Works out the least weight of a division over the n units of the table, and marks such a division.
// Queue, table, marks and entries are lent each by itself, as for `weakest`.
pub fn contract<W: Weight, Q: PriorityQueue<Weight = W>>(
    queue: &mut Q,
    table: &mut [W],
    n: usize,
    marks: &mut [u8],
    entries: &mut [Entry],
) -> Progress<W>
    requires sound { Q.PriorityQueue.sound queue.old }
    requires some { 2 ≤ n }
    requires room { Room n table.old marks.old entries.old }
    ensures sound { Q.PriorityQueue.sound queue.new }
    ensures outcome { (ls : List (Link W.Weight.Value)) → Sound (kind_of W.Weight) n ls → Holds W.Weight n ls [] table.old → Outcome (kind_of W.Weight) n ls (W.Weight.value result.best) marks.new (take result.mergers entries.new) result.scans }
    ensures spared { Spared n result.mergers table.old table.new marks.old marks.new entries.old entries.new }
    ensures mergers { result.mergers ≤ n }
    ensures unscanned { result.scans ≡ 0 → queue.new ≡ queue.old }
    ensures scanned { 0 < result.scans → Empty (Q.PriorityQueue.key queue.new) }
{
    let mut work = Contraction {
        weights: table,
        groups: Groups::single(n),
        marks,
        entries,
        mergers: 0,
        scans: 0,
    };
    let first = work.begin();
    let best = work.run(queue, first);
    work.finish(best)
}
