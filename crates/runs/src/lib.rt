// Runs: lists of calls on one plan from its opening on, the replies to them, and what is promised of both.
#![tactic(auto)]

pub mod call;
pub mod instances;
pub mod promise;
pub mod reply;
