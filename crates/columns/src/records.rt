// What rows, S words and tables have in common: words below p, words in place, lines across columns.
ghost use Rattle.std.specs.Borrow.{Bor};
ghost use Rattle.std.specs.Prelude.{◌≡◌, Bool, List, ℕ, ◌+◌, ◌*◌, ◌<◌, ◌≤◌, length, take, drop, replicate, leb};
ghost use Rattle.base.specs.Pick.{pick};
ghost use Rattle.refusal.specs.Refusal.{answer_number, refusal_number};
ghost use Rattle.field.specs.Field.{p};
ghost use Rattle.pieces.specs.Records.{all_below};
ghost use Rattle.pieces.specs.Writing.{put, put_lines};
ghost use Rattle.base.specs.Digits.{digits};
ghost use Rattle.columns.specs.Lines.{strided, cut_lines};
ghost use Rattle.columns.specs.Section.{all_of};

use refusal::Refusal;

// Whether every word is below p.
pub(crate) fn all_below(words: &[u64]) -> bool
    ensures { result ≡ all_below p words.now }
{
    for word in words {
        if field::P <= *word {
            return false;
        }
    }
    true
}

// Tests the words of a piece in a section that has room for `room` words: those that have room are not all
// fine, else there are more words.
pub(crate) fn test_words<F: Fn(&[u64]) -> bool>(
    room: usize,
    piece: &[u64],
    all_fine: F,
    fault: Refusal,
) -> Result<(), Refusal>
    requires { F.IsAlwaysCallable all_fine }
    ensures { (test : ℕ → Bool) → ((words : Bor (List ℕ)) (answer : Bool) → F.post all_fine words answer → answer ≡ all_of test words.now)
        → answer_number result ≡ pick (all_of test (take room piece.now)) (pick (leb (length piece.now) room) 0 13) (refusal_number fault) }
{
    if !all_fine(&piece[..room.min(piece.len())]) {
        return Err(fault);
    }
    if room < piece.len() {
        return Err(Refusal::TooMany);
    }
    Ok(())
}

// Words at consecutive places from `at` on.
pub(crate) fn write_words(at: usize, words: &[u64], buffer: &mut [u64])
    requires { at + length words.now ≤ length buffer.old }
    ensures { buffer.new ≡ put 1 buffer.old at words.now }
{
    for (i, word) in words.iter().enumerate() {
        buffer[at + i] = *word;
    }
}

// The first digits of a word at consecutive places, the least first: a path's steps from the root on.
pub(crate) fn write_path(at: usize, bits: u64, many: u64, buffer: &mut [u64])
    requires { at + many ≤ length buffer.old }
    ensures { buffer.new ≡ put 1 buffer.old at (digits many bits) }
{
    let mut rest = bits;
    for i in 0..many as usize {
        buffer[at + i] = rest % 2;
        rest /= 2;
    }
}

// The same word `many` times.
pub(crate) fn write_same(word: u64, at: usize, many: u64, buffer: &mut [u64])
    requires { at + many ≤ length buffer.old }
    ensures { buffer.new ≡ put 1 buffer.old at (replicate many word) }
{
    for i in 0..many as usize {
        buffer[at + i] = word;
    }
}

// Every `step`-th of the words, from place `from` on, at consecutive places of the buffer from `at`
// on: a part of a column.
pub(crate) fn write_column(
    step: usize,
    from: usize,
    at: usize,
    many: usize,
    words: &[u64],
    buffer: &mut [u64],
)
    requires { (step ≤ 64) × (from + many * step < length words.now + step) × (at + many ≤ length buffer.old) }
    ensures { buffer.new ≡ put 1 buffer.old at (strided step many (drop from words.now)) }
{
    let mut place = from;
    for i in 0..many {
        buffer[at + i] = words[place];
        place += step;
    }
}

// Lines that stand in the words one after the other, `step` words apart, in the rows from `row` on:
// the first `width` words of each. The columns lie a power of two apart, so that the words of a row
// share one set of the cache: they are written column by column.
pub(crate) fn write_lines(
    width: usize,
    step: usize,
    trace: usize,
    row: usize,
    many: usize,
    words: &[u64],
    buffer: &mut [u64],
)
    requires width_le_step { (width ≤ step) × (step ≤ 64) × (trace ≤ 65536) × (row + many ≤ trace) }
    requires many_in_bounds { (step * many ≤ length words.now) × (width * trace ≤ length buffer.old) }
    ensures { buffer.new ≡ put_lines width trace row (cut_lines width step many words.now) buffer.old }
{
    let mut at = row;
    for column in 0..width {
        write_column(step, column, at, many, words, buffer);
        at += trace;
    }
}
