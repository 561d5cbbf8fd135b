// 02, Change 1: an unpadded circuit, padded to the trace length.
#![tactic(auto)]

mod judging;
pub mod padding;
mod parts;
