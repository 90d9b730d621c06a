// Sheets: the byte format in which plans are kept and handed on, and what is wrong with bytes that are no sheet.
#![tactic(auto)]

pub mod fault;
pub mod head;
pub mod issue;
pub mod theorems;
