// A small cursor on the lent words, and what is read through it. The work is done on plain slices and numbers; the cursor's functions take
// it apart and call those, and whoever calls `sections_of` or `part_of` sees no cursor.
ghost use Rattle.std.specs.Prelude.{◌≡◌, take, drop};
ghost use Rattle.listing.specs.Ends.{listing_from};
ghost use Rattle.listing.specs.Cursor.{moved_to};

use crate::sections::{Sections, sections_from};
use refusal::Refusal;

// The place n words after another, or the end.
fn moved_to(words: &[u64], at: usize, n: usize) -> usize
    ensures { result ≡ moved_to words.now at n }
{
    at.saturating_add(n).min(words.len())
}

// n words from a place on, or as many as there are.
fn part_from(words: &[u64], at: usize, n: usize) -> &[u64]
    ensures { result.now ≡ take n (drop at words.now) }
{
    let rest = words.get(at..).unwrap_or(&[]);
    rest.get(..n).unwrap_or(rest)
}

// The lent words and a place in them. The fields are open to all, so no function asks where it stands.
#[derive(Clone, Copy)]
pub struct Cursor<'a> {
    pub words: &'a [u64],
    pub at: usize,
}

impl<'a> Cursor<'a> {
    // A cursor at the first word.
    pub fn new(words: &'a [u64]) -> Cursor<'a>
        ensures { (result.words ≡ words.entry) × (result.at ≡ 0) }
    {
        Cursor { words, at: 0 }
    }

    // The cursor n words on, or at the end.
    pub fn moved(self, n: usize) -> Cursor<'a>
        ensures { (result.words ≡ self.entry.words) × (result.at ≡ moved_to self.entry.words.now self.entry.at n) }
    {
        let at = moved_to(self.words, self.at, n);
        Cursor { at, ..self }
    }

    // The next n words, or as many as there are.
    pub fn part(self, n: usize) -> &'a [u64]
        ensures { result.now ≡ take n (drop self.entry.at self.entry.words.now) }
    {
        part_from(self.words, self.at, n)
    }

    // The sections of the listing that begins at the cursor, or 20.
    pub fn sections(self) -> Result<Sections, Refusal>
        ensures { result ≡ listing_from self.entry.words.now self.entry.at }
    {
        sections_from(self.words, self.at)
    }
}

// The sections of a listing, or 20.
pub fn sections_of(words: &[u64]) -> Result<Sections, Refusal>
    ensures { result ≡ listing_from words.now 0 }
{
    Cursor::new(words).sections()
}

// The words of a section, from where they begin and how many they are.
pub fn part_of(words: &[u64], start: usize, len: usize) -> &[u64]
    ensures { result.now ≡ take len (drop start words.now) }
{
    Cursor::new(words).moved(start).part(len)
}
