// The test of a pair that looks at its three weights alone, and the pass over all pairs.
ghost use Rattle.std.specs.Prelude.{◌≡◌, ◌+◌, ◌<◌, ◌≤◌, false, ◌||◌, List, IfSome};
ghost use Rattle.weights.specs.Laws.{limit};
ghost use Rattle.cuts.specs.declared.entry.Entry.{Entry};
ghost use Rattle.cuts.specs.Kinds.{kind_of};
ghost use Rattle.cuts.specs.Links.{Link};
ghost use Rattle.passes.specs.Passed.{Passed};
ghost use Rattle.tables.specs.Meaning.{ExplainsIn};

use crate::pair::Pair;
use cuts::ground::Ground;
use tables::graph::Graph;
use weights::weight::{LIMIT, Weight, add};

// Unbalanced: the degree of one of two groups is at most twice their joint weight. Where twice that weight passes the limit,
// neither is.
pub fn is_unbalanced<W: Weight>(joint: W, a: W, b: W) -> bool
    ensures fits { W.Weight.size (W.Weight.value joint) + W.Weight.size (W.Weight.value joint) ≤ limit → result ≡ (W.Weight.le (W.Weight.value a) (W.Weight.plus (W.Weight.value joint) (W.Weight.value joint)) || W.Weight.le (W.Weight.value b) (W.Weight.plus (W.Weight.value joint) (W.Weight.value joint))) }
    ensures over { limit < W.Weight.size (W.Weight.value joint) + W.Weight.size (W.Weight.value joint) → result ≡ false }
{
    if joint.amount() > LIMIT / 2 {
        return false;
    }
    let twice = add(joint, joint);
    a.at_most(twice) || b.at_most(twice)
}

// The first pair, in order of the lower group and then the higher, that meets a test, with its lowest ground.
pub fn first_pair<W: Weight>(graph: &Graph<W>, best: W) -> Option<(usize, usize, Ground)>
    ensures order { IfSome result (λ p. (p.0 < p.1) × (p.1 < graph.now.groups.now.units)) }
    ensures passed { let n = graph.now.groups.now.units in (ls : List (Link W.Weight.Value)) (es : List Entry) → ExplainsIn W.Weight ls es graph.now → Passed (kind_of W.Weight) n ls es (W.Weight.value best) result }
{
    // Two loops that one break leaves: a closure could not leave both. The groups' numbers are what is gone over:
    // they are rows and columns of the table.
    'pass: {
        let n = graph.units();
        for u in 0..n {
            if !graph.stands(u) {
                continue;
            }
            for v in u + 1..n {
                if !graph.stands(v) {
                    continue;
                }
                if graph.entry(u, v).at_most(W::nothing()) {
                    continue;
                }
                if let Some(ground) = Pair::of(graph, u, v).ground(best) {
                    break 'pass Some((u, v, ground));
                }
            }
        }
        None
    }
}
