// Rows: each record's gate gives the path, the record the constants.
ghost use Rattle.std.specs.Prelude.{◌≡◌, List, ◌++◌, ℕ, ◌+◌, ◌*◌, ◌≤◌, length};
ghost use Rattle.pieces.specs.Records.{rows_of};
ghost use Rattle.pieces.specs.Writing.{put, padded, put_lines};
ghost use Rattle.pieces.specs.Rows.{rows_fault, row_lines};
ghost use Rattle.base.specs.Digits.{digits};
ghost use Rattle.columns.specs.Placed.{told_by, Spells, Fits, Stageable, Stages};
ghost use Rattle.base.specs.Limits.{most_gates};

use crate::records::{write_lines, write_path, write_same, write_words};
use selector::Marks;
use tree::gate_rows::GateRows;

// One row's words at place `at` of the stage: the path's digits, the constants, then zeros.
fn stage_line(at: usize, height: u64, bits: u64, steps: u64, words: &[u64], stage: &mut [u64; 2048])
    requires { (at + height ≤ 2048) × (steps + length words.now ≤ height) × (length stage.old ≡ 2048) }
    ensures stage_after { stage.new ≡ put 1 stage.old at (padded height (digits steps bits ++ words.now)) }
    ensures stage_len { length stage.new ≡ 2048 }
{
    write_path(at, bits, steps, stage);
    write_words(at + steps as usize, words, stage);
    let filled = steps + words.len() as u64;
    write_same(0, at + filled as usize, height - filled, stage);
}

// How many words of a piece are staged, and as how many rows.
#[derive(Clone, Copy)]
pub struct Staged {
    pub next: usize,
    pub rows: usize,
}

// The first records of a piece without a fault, at the most 32, as lines of the stage.
fn stage_rows(
    height: u64,
    bits: &Marks,
    steps: &Marks,
    piece: &[u64],
    stage: &mut [u64; 2048],
) -> Staged
    requires height_bound { (height ≤ 64) × (length stage.old ≡ 2048) }
    requires stageable { Stageable height steps.now piece.now }
    ensures { Stages height bits.now steps.now piece.now stage.new result.next result.rows }
{
    let mut rows = 0;
    let mut i = 0; // goes by a record's length
    while rows < 32 && i < piece.len() {
        let g = piece[i] as usize;
        let start = i + 2;
        let end = start + piece[i + 1] as usize;
        stage_line(
            64 * rows,
            height,
            bits[g],
            steps[g],
            &piece[start..end],
            stage,
        );
        rows += 1;
        i = end;
    }
    Staged { next: i, rows }
}

// The records of a piece without a fault, in the rows from `count` on: 32 at a time, which are
// staged as lines and then written column by column, a few lines of the cache in each. A whole
// circuit takes 0.95 of the time, 0.92 from 1,024 rows on (eeac0d2, where a line was staged word by word).
pub(crate) fn write_rows(
    height: u64,
    trace: u64,
    count: u64,
    gates: &GateRows,
    piece: &[u64],
    constants: &mut [u64],
)
    requires trace_bound { (trace ≤ 65536) × (height ≤ 64) × (gates.now.many ≤ most_gates) × (height * trace ≤ length constants.old) }
    requires fits { Fits (told_by gates.now) height gates.now.steps }
    requires piece_value { rows_fault (told_by gates.now) trace count (rows_of piece.now) ≡ 0 }
    ensures { (path : ℕ → List ℕ) → Spells gates.now.many path gates.now.bits gates.now.steps → constants.new ≡ put_lines height trace count (row_lines path (rows_of piece.now)) constants.old }
{
    let mut stage = [0; 2048];
    let mut row = count as usize;
    let mut i = 0; // goes by what is staged
    while i < piece.len() {
        let staged = stage_rows(height, &gates.bits, &gates.steps, &piece[i..], &mut stage);
        write_lines(
            height as usize,
            64,
            trace as usize,
            row,
            staged.rows,
            &stage,
            constants,
        );
        row += staged.rows;
        i += staged.next;
    }
}
