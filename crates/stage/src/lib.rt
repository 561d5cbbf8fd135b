// The setup stage in one call: a whole circuit planned, opened, given and finished.
#![tactic(auto)]

pub mod circuit;
pub mod listed;
