// The answers to a question for the weakest division of a filing's plan.
#![tactic(auto)]

pub mod room;
pub mod trial;
pub mod weakest;
