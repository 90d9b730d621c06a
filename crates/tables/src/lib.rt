// The weight table of the work, the groups whose weights it holds, and both as one view.
#![tactic(auto)]

pub mod graph;
pub mod groups;
pub mod table;
