// 01, 'Listing': a listing is tested whole (refusal 20), and its sections are read through a small cursor on the lent words.
#![tactic(auto)]

pub mod cursor;
pub mod sections;
