// 01, 'Gates and tree': gates, the search for a tree, plans and paths.
#![tactic(auto)]

pub mod gate_rows;
mod gates;
mod made_up;
mod nodes;
mod order;
pub mod paths;
pub mod plan;
pub mod planning;
mod refusals;
mod search;
