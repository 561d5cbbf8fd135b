// 01, 'Gates and tree': the eight parameter words, the lookup modes, and the refusals 1 and 2.
#![tactic(auto)]

pub mod lookup;
pub mod parameters;
