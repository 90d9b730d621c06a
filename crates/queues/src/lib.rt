// Priority queues of groups by weight: what every queue means, and a linear list.
#![tactic(auto)]

pub mod list;
pub mod queue;
