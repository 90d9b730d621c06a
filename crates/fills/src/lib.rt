// Fills the weight table from a plan's links, with all of them as they are or with one out of service.
#![tactic(auto)]

pub mod fill;
pub mod guard;
