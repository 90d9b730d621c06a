// A priority queue as a binary heap.
#![tactic(auto)]

pub mod entry;
pub mod heap;
