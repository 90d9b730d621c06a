// Harness plans: units with their fault codes, and the links between them in lent memory.
#![tactic(auto)]

pub mod plan;
