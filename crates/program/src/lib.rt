// The program `setup` without its input and output: from the bytes of a listing to the bytes that are
// printed.
#![tactic(auto)]

pub mod program;
