// Plans and states as words, for callers that hold them in buffers.
#![tactic(auto)]

pub mod encoding;
pub mod held;
