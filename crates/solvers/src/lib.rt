// The weakest division of a plan, worked out.
#![tactic(auto)]

pub mod answer;
pub mod solve;
