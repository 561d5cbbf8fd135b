// What programs that replay recorded answers share: words read one after the other, and a count of
// the comparisons made and of those that failed.
#![tactic(auto)]

ghost use Rattle.std.specs.Prelude.{◌≡◌};
ghost use Rattle.octets.specs.Words.{word_at};
ghost use Rattle.replay.specs.Replay.{started, stepped, compared, noted};

use octets::words::word_at;
use std::fmt;

// No recording and no run comes near it: a count stays there.
const LIMIT: u64 = 1_000_000_000;

fn up(x: u64) -> u64
    ensures { result ≡ Rattle.replay.specs.Replay.up x }
{
    if x < LIMIT { x + 1 } else { x }
}

// A place among the words, and what has been compared.
#[derive(Clone, Copy)]
pub struct Replay {
    pub at: u64,
    pub compared: u64,
    pub differences: u64,
}

impl Replay {
    pub fn new() -> Self
        ensures { result ≡ started }
    {
        Self {
            at: 0,
            compared: 0,
            differences: 0,
        }
    }

    // The next word.
    pub fn word(self, bytes: &[u8]) -> u64
        ensures { result ≡ word_at bytes.now self.at }
    {
        word_at(bytes, self.at as usize)
    }

    // Past the next word.
    pub fn step(mut self) -> Self
        ensures { result ≡ stepped self }
    {
        self.at = up(self.at);
        self
    }

    // A comparison whose outcome is known.
    pub fn note(mut self, same: bool) -> Self
        ensures { result ≡ noted self same }
    {
        self.compared = up(self.compared);
        if !same {
            self.differences = up(self.differences);
        }
        self
    }

    // The next word compared with an answer, and past it.
    pub fn expect(self, bytes: &[u8], answer: u64) -> Self
        ensures { result ≡ compared self bytes.now answer }
    {
        let same = self.word(bytes) == answer;
        self.note(same).step()
    }
}

// The lines that a program which replays ends with.
impl fmt::Display for Replay {
    fn fmt<W: fmt::Write>(&self, f: &mut fmt::Formatter<W>) -> fmt::Result {
        write!(f, "words {}\ncomparisons {}\n", self.at, self.compared)?;
        write!(f, "differences {}", self.differences)
    }
}
