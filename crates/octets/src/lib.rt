// Bytes that programs read and write: little-endian words, and text in a lent buffer.
#![tactic(auto)]

pub mod input;
pub mod text;
pub mod words;
