// What the program prints of a sheet.
#![tactic(auto)]

pub mod report;
