// Two groups, as the tests of a pair look at them.
ghost use Rattle.std.specs.Prelude.{◌<◌};

pub mod tests;

use tables::graph::Graph;

// The view of weights and groups, and the numbers of two groups in it.
#[derive(Drop)]
pub struct Pair<'p, 'g, W> {
    graph: &'p Graph<'g, W>,
    u: usize,
    v: usize,
    ghost first: { u < graph.now.groups.now.units },
    ghost second: { v < graph.now.groups.now.units },
}
