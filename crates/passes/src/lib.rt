// The tests by which a pair of groups may be merged, and the pass over all pairs.
#![tactic(auto)]

pub mod pair;
pub mod pairs;
