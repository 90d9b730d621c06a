// Filings: a plan together with the marks that it keeps, and its edits.
#![tactic(auto)]

pub mod filing;
pub mod kept;
