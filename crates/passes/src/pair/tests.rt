// The tests of a pair of groups.
ghost use Rattle.std.specs.Prelude.{◌≡◌, ◌+◌, ◌<◌, ◌≤◌, ◌||◌, Decides};
ghost use Rattle.weights.specs.Laws.{limit};
ghost use Rattle.cuts.specs.declared.ground.Ground.TheVariants.{Triangle, Neighbourhood};
ghost use Rattle.cuts.specs.Kinds.{kind_of, lesser as lighter};
ghost use Rattle.cuts.specs.Tests.{Meets};
ghost use Rattle.passes.specs.Passed.{Apex, Judged};
ghost use Rattle.passes.specs.Pairs.{InEachPlan, FitsInEachPlan};
ghost use Rattle.tables.specs.Meaning.{weight_of};

use crate::pair::Pair;
use crate::pairs::is_unbalanced;
use cuts::ground::Ground;
use tables::graph::Graph;
use weights::weight::Weight;

// The lighter of two weights.
fn lesser<W: Weight>(a: W, b: W) -> W
    ensures { W.Weight.value result ≡ lighter (kind_of W.Weight) (W.Weight.value a) (W.Weight.value b) }
{
    if a.at_most(b) { a } else { b }
}

impl<'p, 'g, W: Weight> Pair<'p, 'g, W> {
    // The pair of two groups, by number.
    pub fn of(graph: &'p Graph<'g, W>, u: usize, v: usize) -> Pair<'p, 'g, W>
        requires u { u < graph.now.groups.now.units }
        requires v { v < graph.now.groups.now.units }
        ensures graph { result.graph.now ≡ graph.now }
        ensures u { result.u ≡ u }
        ensures v { result.v ≡ v }
    {
        Pair { graph, u, v }
    }

    // Two weights together: their sum is not refused in any plan that the pair is one of.
    fn sum(&self, a: W, b: W) -> W
        requires fits { FitsInEachPlan W.Weight self.now (W.Weight.value a) (W.Weight.value b) }
        ensures { W.Weight.size (W.Weight.value a) + W.Weight.size (W.Weight.value b) ≤ limit → W.Weight.value result ≡ W.Weight.plus (W.Weight.value a) (W.Weight.value b) }
    {
        a.sum(b).unwrap_or(a)
    }

    // Whether a degree is at most twice a weight, whose double is not refused in any plan that the pair is one of.
    fn is_within_twice(&self, degree: W, weight: W) -> bool
        requires fits { FitsInEachPlan W.Weight self.now (W.Weight.value weight) (W.Weight.value weight) }
        ensures { W.Weight.size (W.Weight.value weight) + W.Weight.size (W.Weight.value weight) ≤ limit → result ≡ W.Weight.le (W.Weight.value degree) (W.Weight.plus (W.Weight.value weight) (W.Weight.value weight)) }
    {
        weight.sum(weight).is_ok_and(|twice| degree.at_most(twice))
    }

    // Unbalanced: the degree of one of the two is at most twice their joint weight.
    fn is_unbalanced(&self, joint: W) -> bool
        requires fits { FitsInEachPlan W.Weight self.now (W.Weight.value joint) (W.Weight.value joint) }
        ensures { W.Weight.size (W.Weight.value joint) + W.Weight.size (W.Weight.value joint) ≤ limit → result ≡ (W.Weight.le (weight_of W.Weight self.now.graph.now self.now.u self.now.u) (W.Weight.plus (W.Weight.value joint) (W.Weight.value joint)) || W.Weight.le (weight_of W.Weight self.now.graph.now self.now.v self.now.v) (W.Weight.plus (W.Weight.value joint) (W.Weight.value joint))) }
    {
        is_unbalanced(
            joint,
            self.graph.entry(self.u, self.u),
            self.graph.entry(self.v, self.v),
        )
    }

    // Whether a group makes a triangle of the pair: it is a third one, and each degree is at most twice
    // what joins it to the other two.
    fn is_apex(&self, apex: usize) -> bool
        requires { apex < self.now.graph.now.groups.now.units }
        ensures { InEachPlan W.Weight self.now (λ n ls es u v. Decides result (Apex (kind_of W.Weight) n ls es u v apex)) }
    {
        let joint = self.graph.entry(self.u, self.v);
        self.graph.is_third(self.u, self.v, apex)
            && self.is_within_twice(
                self.graph.entry(self.u, self.u),
                self.sum(joint, self.graph.entry(self.u, apex)),
            )
            && self.is_within_twice(
                self.graph.entry(self.v, self.v),
                self.sum(joint, self.graph.entry(self.v, apex)),
            )
    }

    // Triangle: some third group makes one of the pair.
    pub fn is_triangle(&self) -> bool
        ensures { InEachPlan W.Weight self.now (λ n ls es u v. (best : W.Weight.Value) → Decides result (Meets (kind_of W.Weight) n ls es best u v Triangle)) }
    {
        (0..self.graph.units()).any(|apex| self.is_apex(apex))
    }

    // Neighbourhood: the joint weight, and for each third group the lesser of what joins it to the two, come to best.
    pub fn is_neighbourhood(&self, best: W) -> bool
        ensures { InEachPlan W.Weight self.now (λ n ls es u v. Decides result (Meets (kind_of W.Weight) n ls es (W.Weight.value best) u v Neighbourhood)) }
    {
        let mut sum = self.graph.entry(self.u, self.v);
        // The groups' numbers are what is gone over: they are rows and columns of the table.
        for w in 0..self.graph.units() {
            if self.graph.is_third(self.u, self.v, w) {
                sum = self.sum(
                    sum,
                    lesser(self.graph.entry(self.u, w), self.graph.entry(self.v, w)),
                );
            }
        }
        best.at_most(sum)
    }

    // The lowest ground on which the pair may be merged, if any.
    pub fn ground(&self, best: W) -> Option<Ground>
        ensures { InEachPlan W.Weight self.now (λ n ls es u v. Judged (kind_of W.Weight) n ls es (W.Weight.value best) u v result) }
    {
        let joint = self.graph.entry(self.u, self.v);
        if best.at_most(joint) {
            return Some(Ground::Heavy);
        }
        if self.is_unbalanced(joint) {
            return Some(Ground::Unbalanced);
        }
        if self.is_triangle() {
            return Some(Ground::Triangle);
        }
        if self.is_neighbourhood(best) {
            return Some(Ground::Neighbourhood);
        }
        None
    }
}
