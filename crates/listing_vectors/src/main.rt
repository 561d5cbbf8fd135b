// Replays recorded listings (standard input: the words of listings.words): each input goes through the
// program without its input and output, and what that prints is held to the recorded bytes. Writes how
// many inputs and comparisons there were, and how many differed.
#![tactic(auto)]

ghost use Rattle.std.specs.Prelude.{◌≡◌, length};

use octets::input::fill as read_input;
use program::program::{INPUT_ROOM, Input, OUTPUT_ROOM, Output, run_bytes};
use replay::Replay;
use std::io;

// Room for the recording.
fn space() -> [u8; 393216]
    ensures { 393216 ≡ length result }
{
    [0; 393216]
}

// The bytes from the start of a word on, as many as are asked for and as there are.
fn part(bytes: &[u8], word: usize, many: usize) -> &[u8] {
    let rest = bytes.get(word.saturating_mul(8)..).unwrap_or(&[]);
    rest.get(..many).unwrap_or(rest)
}

// Puts bytes at the start of an input's room, as many as it takes, as reading does. Answers how many.
fn fill(room: &mut Input, bytes: &[u8]) -> usize {
    let many = bytes.len().min(INPUT_ROOM);
    room[..many].copy_from_slice(&bytes[..many]);
    many
}

// Past some words.
fn past(start: Replay, words: usize) -> Replay {
    (0..words).fold(start, |s, _| s.step())
}

// An input, and what is printed for it.
fn replay_listing(bytes: &[u8], start: Replay) -> Replay {
    let given = start.word(bytes) as usize;
    let wanted = start.step().word(bytes) as usize;
    let input = start.step().step();
    let text = past(input, given.div_ceil(8));
    let mut room: Input = [0; INPUT_ROOM];
    let read = fill(&mut room, part(bytes, input.at as usize, given));
    let mut out: Output = [0; OUTPUT_ROOM];
    let many = run_bytes(&room, read, &mut out);
    let good = &out[..many] == part(bytes, text.at as usize, wanted);
    past(text, wanted.div_ceil(8)).note(good)
}

fn main(rt: HostRuntime) -> io::Result<()> {
    let mut buffer = space();
    let length = read_input(&mut rt.stdin(), &mut buffer)?;
    let bytes = &buffer[..length];
    let count = octets::words::word_at(bytes, 2);
    let listings = Replay::new().step().step().step();
    let all = (0..count).fold(listings, |s, _| replay_listing(bytes, s));
    let version = all.note(octets::words::word_at(bytes, 0) == 1);
    let s = version
        .note(length / 8 == all.at as usize)
        .note(length % 8 == 0);
    println!(rt; "listings {count}")?;
    println!(rt; "{s}")
}
