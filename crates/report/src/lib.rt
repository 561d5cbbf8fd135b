// 01, 'Listing': what the program `setup` prints.
#![tactic(auto)]

mod lines;
pub mod report;
