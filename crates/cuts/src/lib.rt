// Grounds of mergers, entries of a record, and the theorems on divisions that make the figure least.
#![tactic(auto)]

pub mod entry;
pub mod ground;
pub mod instances;
pub mod theorems;
pub mod worked;
