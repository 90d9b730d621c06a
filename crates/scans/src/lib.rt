// Scans of the groups, which find pairs that no lighter division parts.
#![tactic(auto)]

pub mod found;
pub mod scan;
