// Cell words: the copy columns and the scratch words grow together.
ghost use Rattle.std.specs.Prelude.{◌≡◌, ℕ, ◌+◌, ◌<◌, ◌≤◌, length, get_or};
ghost use Rattle.refusal.specs.Refusal.{answer_number};
ghost use Rattle.pieces.specs.Setting.{cols};
ghost use Rattle.pieces.specs.Cells.{cells_fault, place_cell, cells_run};
ghost use Rattle.columns.specs.Section.{all_of, named};
ghost use Rattle.columns.specs.Placeable.{Placeable};

use crate::records::test_words;
use cs::Variable;
use refusal::Refusal;

// Whether a cell word is a placeholder or has an index below `vars`.
fn is_named(vars: u64, variable: Variable) -> bool
    ensures { result ≡ named vars variable.0 }
{
    variable.as_variable_index() < vars || variable.is_placeholder()
}

// Whether each of the words is so.
fn all_named(vars: u64, words: &[u64]) -> bool
    ensures { result ≡ all_of (named vars) words.now }
{
    for word in words {
        if !is_named(vars, Variable(*word)) {
            return false;
        }
    }
    true
}

// Tests the words of a piece: one of those that have room is faulty, else there are more.
pub(crate) fn cells_fault(total: u64, vars: u64, count: u64, piece: &[u64]) -> Result<(), Refusal>
    requires { (count ≤ total) × (total ≤ 4294967296) }
    ensures { answer_number result ≡ cells_fault total vars count piece.now }
{
    test_words(
        (total - count) as usize,
        piece,
        |words| all_named(vars, words),
        Refusal::Variable,
    )
}

// One cell word: a placeholder changes nothing, an unseen variable stores the cell's word and number, and
// a seen one exchanges its value with the cell's word.
fn place_cell(cell: u64, variable: Variable, copies: &mut [u64], scratch: &mut [u64])
    requires cell_in_bounds { cell < length copies.old }
    requires placeable { Placeable (length scratch.old) variable.0 }
    ensures { cols copies.new scratch.new ≡ place_cell cell variable.0 (cols copies.old scratch.old) }
{
    if variable.is_placeholder() {
        return;
    }
    let at = (2 * variable.as_variable_index()) as usize;
    let place = cell as usize;
    let word = copies[place];
    let value = scratch[at];
    scratch[at] = word;
    if value == 0 {
        scratch[at + 1] = cell;
    } else {
        copies[place] = value;
    }
}

// The words of a piece without a fault, in the cells from number `count` on.
pub(crate) fn place_cells(count: u64, piece: &[u64], copies: &mut [u64], scratch: &mut [u64])
    requires piece_in_bounds { count + length piece.now ≤ length copies.old }
    requires by_index { (j : ℕ) → j < length piece.now → Placeable (length scratch.old) (get_or piece.now j 0) }
    ensures { cols copies.new scratch.new ≡ cells_run count piece.now (cols copies.old scratch.old) }
{
    for (i, word) in piece.iter().enumerate() {
        place_cell(count + i as u64, Variable(*word), copies, scratch);
    }
}
