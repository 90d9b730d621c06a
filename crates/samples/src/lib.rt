// What the programs over pseudo-random plans share: numbers, codes, and links as plain values.
#![tactic(auto)]

pub mod coded;
pub mod dice;
pub mod wire;
