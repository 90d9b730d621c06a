// Works out the weakest division of a table of joint weights, for every weight kind and priority queue.
#![tactic(auto)]

pub mod contraction;
pub mod marking;
pub mod progress;
