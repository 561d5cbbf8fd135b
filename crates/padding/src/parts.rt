// The parts of a padded listing, each put after the one before it. Each answers the place behind it.
ghost use Rattle.std.specs.Prelude.{◌≡◌, ◌∷◌, ◌++◌, ◌+◌, ◌-◌, ◌*◌, ◌≤◌, drop, length};
ghost use Rattle.labels.specs.Ranges.{longest_trace, most_columns};
ghost use Rattle.parameters.specs.Parameters.{parameter_words};
ghost use Rattle.writer.specs.Put.{put};
ghost use Rattle.padding.specs.Padding.{fillers, stretched};

use listing::cursor::part_of;
use parameters::parameters::PARAMETER_WORDS;
use writer::put::{put_same, put_words};

// A count and its words.
pub(crate) fn put_counted(count: u64, words: &[u64], at: usize, out: &mut [u64]) -> usize
    requires { at + 1 + length words.now ≤ length out.old }
    ensures { (result ≡ at + 1 + length words.now) × (out.new ≡ put at (count ∷ words.now) out.old) }
{
    put_same(count, 1, at, out);
    put_words(words, at + 1, out);
    at + 1 + words.len()
}

// The parameters at the front: their count, the length, and the other seven as they were given.
pub(crate) fn put_parameters(long: u64, eight: &[u64], out: &mut [u64]) -> usize
    requires { (length eight.now ≡ parameter_words) × (1 + parameter_words ≤ length out.old) }
    ensures { (result ≡ 1 + parameter_words) × (out.new ≡ put 0 (parameter_words ∷ (long ∷ drop 1 eight.now)) out.old) }
{
    put_same(PARAMETER_WORDS as u64, 1, 0, out);
    put_counted(long, &eight[1..], 1, out)
}

// Row records of one gate without constants.
pub(crate) fn put_rows(gate: u64, many: usize, at: usize, out: &mut [u64]) -> usize
    requires { at + 2 * many ≤ length out.old }
    ensures { (result ≡ at + 2 * many) × (out.new ≡ put at (fillers many gate) out.old) }
{
    let record = [gate, 0];
    for i in 0..many {
        put_words(&record, at + 2 * i, out);
    }
    at + 2 * many
}

// Columns of `height` words, each filled up to `long` words.
pub(crate) fn put_columns(
    columns: usize,
    height: usize,
    long: usize,
    fill: u64,
    words: &[u64],
    at: usize,
    out: &mut [u64],
) -> usize
    requires height_le_long { (height ≤ long) × (length words.now ≡ columns * height) × (at + columns * long ≤ length out.old) }
    requires long_le_longest_trace { (long ≤ longest_trace) × (columns ≤ most_columns) }
    ensures { (result ≡ at + columns * long) × (out.new ≡ put at (stretched fill height long columns words.now) out.old) }
{
    for c in 0..columns {
        let start = at + c * long;
        put_words(part_of(words, c * height, height), start, out);
        put_same(fill, long - height, start + height, out);
    }
    at + columns * long
}

// The row section: the count, the given records and those of the missing rows.
pub(crate) fn put_row_section(
    long: u64,
    rows: &[u64],
    gate: u64,
    missing: usize,
    at: usize,
    out: &mut [u64],
) -> usize
    requires { at + 1 + length rows.now + 2 * missing ≤ length out.old }
    ensures { (result ≡ at + 1 + length rows.now + 2 * missing) × (out.new ≡ put at (long ∷ (rows.now ++ fillers missing gate)) out.old) }
{
    let behind = put_counted(long, rows, at, out);
    put_rows(gate, missing, behind, out)
}

// The section of S words or of cells: the count, and the columns filled up.
pub(crate) fn put_column_section(
    columns: usize,
    height: usize,
    long: usize,
    fill: u64,
    words: &[u64],
    at: usize,
    out: &mut [u64],
) -> usize
    requires height_le_long { (height ≤ long) × (length words.now ≡ columns * height) × (at + 1 + columns * long ≤ length out.old) }
    requires long_le_longest_trace { (long ≤ longest_trace) × (columns ≤ most_columns) }
    ensures { (result ≡ at + 1 + columns * long) × (out.new ≡ put at (columns * long ∷ stretched fill height long columns words.now) out.old) }
{
    put_same((columns * long) as u64, 1, at, out);
    put_columns(columns, height, long, fill, words, at + 1, out)
}
