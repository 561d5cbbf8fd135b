// 01, 'Labels': the label of a cell is its column's representative times a power of the domain generator.
#![tactic(auto)]

ghost use Rattle.std.specs.Prelude.{◌≡◌, ℕ, ◌+◌, ◌*◌, ◌≤◌, ◌<◌, length};
ghost use Rattle.base.specs.Fills.{Filled};
ghost use Rattle.field.specs.Field.{p, fpow, is_non_residue};
ghost use Rattle.labels.specs.Ranges.{ranges_fit, most_columns};
ghost use Rattle.labels.specs.Labels.{Columns, domain_generator, absent, first_column, tried, found, taken_one, powers_taken, representatives_number, representatives_of, powers_of, kept_of, taken_of, label_of, label_number, label_answer, fill_number, labels_written};
ghost use Rattle.labels.specs.Stored.{stored, no_representatives};
ghost use Rattle.refusal.specs.Refusal.{answer_number, answer_or};
ghost use Rattle.labels.specs.Stretches.{root_power, scaled_from, negated_from, HalfTurn, ColumnZero};

use refusal::Refusal;

// The refusals of labels: N, C or a cell is out of range; the candidates reach p; a lent slice is too short.
pub const OUT_OF_RANGE: Refusal = Refusal::Parameter;

pub const CANDIDATES_REACH_P: Refusal = Refusal::NoLabels;

pub const BUFFER_TOO_SHORT: Refusal = Refusal::ShortBuffer;

pub const LONGEST_TRACE: u64 = 65536;

pub const MOST_COLUMNS: u64 = 64;

// A word for each column.
pub type ColumnWords = [u64; MOST_COLUMNS as usize];

// Whether N and C are within 01's ranges.
pub fn ranges_fit(n: u64, c: u64) -> bool
    ensures { result ≡ ranges_fit n c }
{
    n <= LONGEST_TRACE && base::is_power(n) && 1 <= c && c <= MOST_COLUMNS
}

// w, whose powers are the domain of length n.
fn domain_generator_for_size(n: u64) -> u64
    ensures { result ≡ domain_generator n }
{
    let mut w = field::generator();
    for e in base::power_above(n).exponent..32 {
        w = field::mul(w, w);
    }
    w
}

// Whether x is none of the words.
fn is_absent(x: u64, words: &[u64]) -> bool
    ensures { result ≡ absent x words.now }
{
    !words.contains(&x)
}

// The columns that have a representative, column 0 among them: the representatives, and beside
// each its N-th power. The words past them are 0. Also how many N-th powers were taken, one for each
// non-residue tried.
#[derive(Clone, Copy)]
pub struct NonResidues {
    pub kept: u64,
    pub values: ColumnWords,
    pub powers: ColumnWords,
    pub taken: u64,
}

impl NonResidues {
    // No column: what a caller writes out after a refusal.
    pub fn none() -> Self
        ensures { result ≡ no_representatives }
    {
        NonResidues {
            kept: 0,
            values: [0; MOST_COLUMNS as usize],
            powers: [0; MOST_COLUMNS as usize],
            taken: 0,
        }
    }

    // Column 0, whose representative is 1, and so is its power; no power was taken.
    fn first_column() -> Self
        ensures { result ≡ stored first_column 0 }
    {
        let mut first = NonResidues::none();
        first.kept = 1;
        first.values[0] = 1;
        first.powers[0] = 1;
        first
    }

    // The next column takes the candidate if it is a non-residue of a coset of its own. A non-residue's
    // N-th power is taken once, here.
    fn try_candidate(mut self, n: u64, candidate: u64) -> Self
        requires { (self.kept < most_columns) × (self.taken < p) }
        ensures { (s : Columns) (t : ℕ) → self ≡ stored s t → length s.powers ≡ length s.values → result ≡ stored (tried is_non_residue (λ k. fpow k n) candidate s) (t + taken_one is_non_residue candidate) }
    {
        if field::is_non_residue(candidate) {
            let power = field::pow(candidate, n);
            self.taken += 1;
            let kept = self.kept as usize;
            let powers = self.powers;
            if is_absent(power, &powers[..kept]) {
                self.values[kept] = candidate;
                self.powers[kept] = power;
                self.kept += 1;
            }
        }
        self
    }
}

// The representatives of c columns, or of as many as the candidates below p give.
fn make_non_residues(n: u64, c: u64) -> NonResidues
    requires { c ≤ most_columns }
    ensures { result ≡ stored (found n c) (powers_taken n c) }
{
    let mut found = NonResidues::first_column();
    for candidate in 2..field::P {
        if c <= found.kept {
            return found;
        }
        found = found.try_candidate(n, candidate);
    }
    found
}

// The representatives of columns 0 to C - 1, their N-th powers, and zeros past both; how many N-th
// powers were taken. N or C out of range, then candidates that reach p.
pub fn representatives(n: u64, c: u64) -> Result<NonResidues, Refusal>
    ensures number_value { answer_number result ≡ representatives_number n c }
    ensures values_value { (answer_or no_representatives result).values ≡ representatives_of n c }
    ensures powers_value { (answer_or no_representatives result).powers ≡ powers_of n c }
    ensures kept_value { (answer_or no_representatives result).kept ≡ kept_of n c }
    ensures taken_value { (answer_or no_representatives result).taken ≡ taken_of n c }
{
    if !ranges_fit(n, c) {
        return Err(OUT_OF_RANGE);
    }
    let found = make_non_residues(n, c);
    if found.kept < c {
        return Err(CANDIDATES_REACH_P);
    }
    Ok(found)
}

// The label of the cell (c, r) whose number is cN + r. N, C or the cell out of range, then candidates
// that reach p.
pub fn label(n: u64, c: u64, cell: u64) -> Result<u64, Refusal>
    ensures number_value { answer_number result ≡ label_number n c cell }
    ensures value_value { answer_or 0 result ≡ label_answer n c cell }
{
    if !ranges_fit(n, c) || c * n <= cell {
        return Err(OUT_OF_RANGE);
    }
    let values = representatives(n, c)?.values;
    let column = (cell / n) as usize;
    let power = field::pow(domain_generator_for_size(n), cell % n);
    Ok(field::mul(values[column], power))
}

// The n words from `at` on: k times the first n, word by word.
fn materialize_x_by_non_residue(k: u64, at: usize, n: usize, copies: &mut [u64])
    requires { (n ≤ at) × (at + n ≤ length copies.old) }
    ensures { Filled (scaled_from k at copies.old) at (at + n) copies.old copies.new }
{
    for r in 0..n {
        copies[at + r] = field::mul(k, copies[r]);
    }
}

// The second half of a column that starts at `at`: each word is p minus the one `half` places
// before it, since w to the power of half of N is p - 1. A whole circuit takes 0.95 of the time
// of products.
fn negate(at: usize, half: usize, rest: usize, copies: &mut [u64])
    requires { (rest ≤ half) × (at + half + rest ≤ length copies.old) }
    ensures { Filled (negated_from half copies.old) (at + half) (at + half + rest) copies.old copies.new }
{
    for r in 0..rest {
        copies[at + half + r] = field::sub(0, copies[at + r]);
    }
}

// The first powers of w.
fn powers(n: u64, rows: usize, copies: &mut [u64])
    requires { rows ≤ length copies.old }
    ensures { Filled (root_power n) 0 rows copies.old copies.new }
{
    let w = domain_generator_for_size(n);
    let mut x: u64 = 1;
    for r in 0..rows {
        copies[r] = x;
        x = field::mul(x, w);
    }
}

// Column 0: the powers of w.
fn materialize_x_poly(n: u64, copies: &mut [u64])
    requires { (n ≤ length copies.old) × HalfTurn n }
    ensures { Filled (root_power n) 0 n copies.old copies.new }
{
    let rest = (n / 2) as usize;
    let half = n as usize - rest;
    powers(n, half, copies);
    negate(0, half, rest, copies);
}

// Columns 1 to c - 1, each its representative times column 0.
fn materialize_x_by_non_residue_polys(n: usize, c: usize, values: &ColumnWords, copies: &mut [u64])
    requires { ColumnZero n c copies.old × HalfTurn n }
    ensures { Filled (label_of n values.now) n (c * n) copies.old copies.new }
{
    let rest = n / 2;
    let half = n - rest;
    for column in 1..c {
        let at = column * n;
        materialize_x_by_non_residue(values[column], at, half, copies);
        negate(at, half, rest, copies);
    }
}

// The labels of all cells into the first C N words, every word past them kept. N or C out of range, then
// a buffer too short, then candidates that reach p; a refusal writes no word.
pub fn fill_labels(n: u64, c: u64, copies: &mut [u64]) -> Result<(), Refusal>
    ensures value { answer_number result ≡ fill_number n c copies.old }
    ensures copies_after { copies.new ≡ labels_written n c copies.old }
{
    if !ranges_fit(n, c) {
        return Err(OUT_OF_RANGE);
    }
    if (copies.len() as u64) < c * n {
        return Err(BUFFER_TOO_SHORT);
    }
    let found = representatives(n, c)?;
    materialize_x_poly(n, copies);
    materialize_x_by_non_residue_polys(n as usize, c as usize, &found.values, copies);
    Ok(())
}
