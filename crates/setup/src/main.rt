// The program `setup`: a listing on standard input, the plan and the columns on standard output. What
// is printed for which bytes is `program`'s contract, and so are the rooms for both; here is only what
// reads and writes them. Where that fails, a line on standard error says so.
#![tactic(auto)]

use octets::input::fill;
use program::program::{INPUT_ROOM, Input, OUTPUT_ROOM, Output, run_bytes};
use std::io;

fn main(rt: HostRuntime) -> io::Result<()> {
    let mut input: Input = [0; INPUT_ROOM];
    let Ok(many) = fill(&mut rt.stdin(), &mut input) else {
        return eprintln!(rt; "setup: standard input cannot be read");
    };
    let mut output: Output = [0; OUTPUT_ROOM];
    let length = run_bytes(&input, many, &mut output);
    if rt.write_all(&output[..length]).is_err() {
        return eprintln!(rt; "setup: standard output cannot be written");
    }
    Ok(())
}
