// Weights of links and divisions: what every kind of weight owes, and the two kinds, plain and ranked.
#![tactic(auto)]

pub mod plain;
pub mod ranked;
pub mod weight;
