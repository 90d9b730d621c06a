// What a priority queue's meaning is enough for: a drain of any queue, and a third queue.
#![tactic(auto)]

pub mod drain;
#[cfg(test)]
mod tests;
pub mod tied;
