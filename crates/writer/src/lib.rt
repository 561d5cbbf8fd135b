// Words put into a lent buffer: one part after another, and what a call hands out.
#![tactic(auto)]

pub mod hand;
pub mod put;
