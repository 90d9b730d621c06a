// A scan: the groups are taken one by one, heaviest key first, each raising those that still wait.
// The loops count, since the number of a group is what queue, weights and found pairs are given.
ghost use Rattle.std.specs.Prelude.{◌≡◌, ◌<◌, ◌≤◌, false, List, length, Result};
ghost use Rattle.cuts.specs.declared.entry.Entry.{Entry};
ghost use Rattle.cuts.specs.Kinds.{kind_of};
ghost use Rattle.cuts.specs.Links.{Link};
ghost use Rattle.queues.specs.Keys.{Empty, Raised};
ghost use Rattle.refusals.specs.declared.Refusal.{Refusal};
ghost use Rattle.scans.specs.Scanned.{pairs_of, Scanned};
ghost use Rattle.scans.specs.Waits.{Above, AllMarked, CanRaise, comes_to, Marks, present, Waits};
ghost use Rattle.tables.specs.Meaning.{ExplainsIn, weight_of};

use crate::found::Found;
use queues::queue::PriorityQueue;
use tables::graph::Graph;
use weights::weight::Weight;

// Puts every group that stands, with nothing for its key, and marks it.
fn put_all<W: Weight, Q: PriorityQueue<Weight = W>>(
    queue: &mut Q,
    graph: &Graph<W>,
    waiting: &mut [bool],
)
    requires sound { Q.PriorityQueue.sound queue.old }
    requires empty { Empty (Q.PriorityQueue.key queue.old) }
    requires room { graph.now.groups.now.units ≤ length waiting.old }
    ensures sound { Q.PriorityQueue.sound queue.new }
    ensures waits { Waits W.Weight.value (Q.PriorityQueue.key queue.new) (present graph.now.groups.now.units graph.now.groups.now) (λ _. W.Weight.zero) }
    ensures marked { AllMarked graph.now.groups.now.units (Q.PriorityQueue.key queue.new) waiting.new }
    ensures marks { Marks waiting.old (λ _. false) → Marks waiting.new (present graph.now.groups.now.units graph.now.groups.now) }
{
    for g in 0..graph.units() {
        if graph.stands(g) {
            queue.put(g, W::nothing()).unwrap();
            waiting[g] = true;
        }
    }
}

// The joint weight of two groups, where it is above nothing.
fn some_joint<W: Weight>(graph: &Graph<W>, v: usize, w: usize) -> Option<W>
    requires v { v < graph.now.groups.now.units }
    requires w { w < graph.now.groups.now.units }
    ensures { Above W.Weight (weight_of W.Weight graph.now v w) result }
{
    let joint = graph.entry(v, w);
    if joint.at_most(W::nothing()) {
        None
    } else {
        Some(joint)
    }
}

// Raises a group, and tells whether its new key comes to best. It waits, and its sum is not refused, in any plan that the view
// is that of; on any other view nothing changes where it does not wait or its sum is refused.
fn raised_to<W: Weight, Q: PriorityQueue<Weight = W>>(
    queue: &mut Q,
    _graph: &Graph<W>,
    group: usize,
    by: W,
    best: W,
) -> bool
    requires sound { Q.PriorityQueue.sound queue.old }
    requires can { CanRaise W.Weight _graph.now (Q.PriorityQueue.key queue.old) group (W.Weight.value by) }
    ensures sound { Q.PriorityQueue.sound queue.new }
    ensures raised { (answer : Result W Refusal) × Raised W.Weight.value W.Weight.plus W.Weight.size (Q.PriorityQueue.key queue.old) (Q.PriorityQueue.key queue.new) group by answer × (result ≡ comes_to W.Weight (W.Weight.value best) answer) }
{
    queue.raise(group, by).is_ok_and(|key| best.at_most(key))
}

// One scan of the groups that stand. It finds the pairs whose key comes to best, and leaves the queue empty.
pub fn scan<W: Weight, Q: PriorityQueue<Weight = W>>(
    queue: &mut Q,
    graph: &Graph<W>,
    best: W,
) -> Found
    requires { Q.PriorityQueue.sound queue.old }
    ensures sound { Q.PriorityQueue.sound queue.new }
    ensures emptied { Empty (Q.PriorityQueue.key queue.new) }
    ensures found { (ls : List (Link W.Weight.Value)) (es : List Entry) → ExplainsIn W.Weight ls es graph.now → Scanned (kind_of W.Weight) graph.now.groups.now.units ls es (W.Weight.value best) (pairs_of result) }
    ensures units { result.classes.units ≡ graph.now.groups.now.units }
{
    queue.clear();
    // no heap: marks in fixed memory for as many groups as there can be, since a queue does not tell who waits
    let mut waiting = [false; 64];
    put_all(queue, graph, &mut waiting);
    let mut found = Found::none(graph.units());
    while let Some((v, _)) = queue.take() {
        waiting[v] = false;
        // each group that waits, lowest first, is raised by its joint weight with v
        for w in 0..graph.units() {
            if !waiting[w] {
                continue;
            }
            let Some(joint) = some_joint(graph, v, w) else {
                continue;
            };
            if raised_to(queue, graph, w, joint, best) {
                found.note(v, w);
            }
        }
    }
    found
}
