// Replays recorded representatives and labels (standard input: the words of labels.words) and
// writes how many records and words were compared, and how many differed.
#![tactic(auto)]

use labels::{BUFFER_TOO_SHORT, ColumnWords, NonResidues};
use octets::input::fill as read_input;
use octets::words::word_at;
use refusal::answer_number;
use replay::Replay;
use std::io;

// A word for each of c columns as recorded, and zeros in the slots past them.
fn replay_columns(bytes: &[u8], start: Replay, c: u64, words: &ColumnWords) -> Replay {
    let mut s = start;
    for (i, word) in words.iter().enumerate() {
        s = if (i as u64) < c {
            s.expect(bytes, *word)
        } else {
            s.note(*word == 0)
        };
    }
    s
}

// The representatives of a record, then their powers, then how many powers were taken.
fn replay_representatives(bytes: &[u8], start: Replay, n: u64, c: u64) -> Replay {
    let answer = labels::representatives(n, c);
    let accepted = start.note(answer.is_ok());
    let found = answer.unwrap_or(NonResidues::none());
    let s = replay_columns(bytes, accepted, c, &found.values);
    replay_columns(bytes, s, c, &found.powers).expect(bytes, found.taken)
}

// A cell of a record and its label, which also stands in a filled buffer, if that had room for it.
fn replay_label(bytes: &[u8], start: Replay, n: u64, c: u64, filled: Option<&[u64]>) -> Replay {
    let cell = start.word(bytes);
    let answer = labels::label(n, c, cell);
    let value = answer.unwrap_or(0);
    let s = start.step().note(answer.is_ok()).expect(bytes, value);
    match filled {
        Some(copies) => s.note(copies.get(cell as usize) == Some(&value)),
        None => s,
    }
}

// The labels of a record: as many pairs of a cell and its label as the next word says. The same
// labels stand in a filled buffer, if it has room for them.
fn replay_labels(bytes: &[u8], start: Replay, n: u64, c: u64) -> Replay {
    let mut copies = [0u64; 4096];
    let answer = labels::fill_labels(n, c, &mut copies);
    let long = answer == Err(BUFFER_TOO_SHORT) && 64 < n;
    let s = start.note(answer.is_ok() || long);
    let filled = answer.is_ok().then_some(&copies[..]);
    let many = s.word(bytes) % 65536;
    (0..many).fold(s.step(), |s, _| replay_label(bytes, s, n, c, filled))
}

fn replay_accepted(bytes: &[u8], start: Replay) -> Replay {
    let n = start.word(bytes);
    let s = start.step();
    let c = s.word(bytes);
    replay_labels(bytes, replay_representatives(bytes, s.step(), n, c), n, c)
}

// The representatives' number as recorded; where it is a refusal, what stands for none is all 0.
fn replay_refusal(bytes: &[u8], start: Replay, n: u64, c: u64) -> Replay {
    let answer = labels::representatives(n, c);
    let s = start.expect(bytes, answer_number(&answer));
    if answer.is_ok() {
        return s;
    }
    let none = NonResidues::none();
    let t = replay_columns(bytes, s.note(none.taken == 0), 0, &none.values);
    replay_columns(bytes, t, 0, &none.powers)
}

// A refusal: the numbers of the label and of the representatives; no label but 0.
fn replay_refused(bytes: &[u8], start: Replay) -> Replay {
    let n = start.word(bytes);
    let s = start.step();
    let c = s.word(bytes);
    let t = s.step();
    let answer = labels::label(n, c, t.word(bytes));
    let u = t
        .step()
        .expect(bytes, answer_number(&answer))
        .note(answer.unwrap_or(0) == 0);
    replay_refusal(bytes, u, n, c)
}

fn main(rt: HostRuntime) -> io::Result<()> {
    let mut buffer = [0u8; 65536];
    let length = read_input(&mut rt.stdin(), &mut buffer)?;
    let bytes = &buffer[..length];
    let accepted = word_at(bytes, 2);
    let refused = word_at(bytes, 3);
    let records = Replay::new().step().step().step().step();
    let taken = (0..accepted).fold(records, |s, _| replay_accepted(bytes, s));
    let all = (0..refused).fold(taken, |s, _| replay_refused(bytes, s));
    let s = all
        .note(word_at(bytes, 0) == 2)
        .note(length / 8 == all.at as usize)
        .note(length % 8 == 0);
    println!(rt; "accepted records {accepted}")?;
    println!(rt; "refused records {refused}")?;
    println!(rt; "{s}")
}
