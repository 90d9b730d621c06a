// The plans and calls that `docs/RULES.md` works out, with the results that the rules give, as tests.
#![tactic(auto)]

#[cfg(test)]
mod bench;
#[cfg(test)]
mod divisions;
#[cfg(test)]
mod edits;
pub mod example;
#[cfg(test)]
mod keeping;
#[cfg(test)]
mod reading;
#[cfg(test)]
mod ties;
#[cfg(test)]
mod trials;
