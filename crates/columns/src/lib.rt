// 01, 'Columns by pieces': constant, copy and table columns, given in pieces.
#![tactic(auto)]

mod cells;
mod finishing;
pub mod intake;
pub mod opening;
mod records;
mod rooms;
mod row_tests;
mod rows;
mod s_words;
pub mod sections;
mod tables;
pub mod take;
