// Writing the sheet of a plan into lent bytes.
#![tactic(auto)]

mod pen;
mod records;
pub mod write;
