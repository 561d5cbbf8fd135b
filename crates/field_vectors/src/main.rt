// Replays recorded sums, differences, products, powers and residue tests (standard input: the words
// of field.words) and writes how many were compared, and how many differed.
#![tactic(auto)]

use octets::input::fill as read_input;
use replay::Replay;
use std::io;

// The answer to one record: 0 add, 1 sub, 2 mul, 3 pow, 4 whether a is a non-residue.
fn answer(operation: u64, a: u64, b: u64) -> u64 {
    match operation {
        0 => field::add(a, b),
        1 => field::sub(a, b),
        2 => field::mul(a, b),
        3 => field::pow(a, b),
        _ => u64::from(field::is_non_residue(a)),
    }
}

// One record: the operation, two words, the expected word.
fn replay_record(bytes: &[u8], start: Replay) -> Replay {
    let operation = start.word(bytes);
    let s = start.step();
    let a = s.word(bytes);
    let t = s.step();
    let b = t.word(bytes);
    t.step().expect(bytes, answer(operation, a, b))
}

fn main(rt: HostRuntime) -> io::Result<()> {
    let mut buffer = [0u8; 131072];
    let length = read_input(&mut rt.stdin(), &mut buffer)?;
    let bytes = &buffer[..length];
    let count = octets::words::word_at(bytes, 2);
    let records = Replay::new().step().step().step();
    let s = (0..count).fold(records, |s, _| replay_record(bytes, s));
    println!(rt; "records {count}")?;
    println!(rt; "{s}")
}
