// Reading a sheet: the whole plan is replaced, or the first fault is told and nothing changes.
#![tactic(auto)]

pub mod cursor;
pub mod head;
pub mod load;
pub mod parts;
pub mod read;
pub mod records;
pub mod unit_codes;
