// Fault codes: six or seven characters, the first `P`, `C`, `B` or `U`, each later one `A` to `Z` or `0` to `9`.
#![tactic(auto)]

pub mod code;
pub mod rule;
#[cfg(test)]
mod tests;
