// Tests of row records, in one walk.
ghost use Rattle.std.specs.Prelude.{◌≡◌, ◌+◌, ◌≤◌, length, IfOk};
ghost use Rattle.pieces.specs.Records.{row_size, rows_of};
ghost use Rattle.pieces.specs.Front.{front};
ghost use Rattle.pieces.specs.Rows.{row_fault, rows_fault, marked};
ghost use Rattle.refusal.specs.Refusal.{answer_number};
ghost use Rattle.columns.specs.Placed.{gates_by};
ghost use Rattle.base.specs.Limits.{most_gates};

use crate::records::all_below;
use refusal::Refusal;
use selector::Marks;

// Tests the record at the front of the words. `own` has the number of constants of each of the
// `many` gates, `barred` a 1 for each whose rows are turned away.
fn row_fault(
    many: u64,
    own: &Marks,
    barred: &Marks,
    trace: u64,
    row: u64,
    words: &[u64],
) -> Result<(), Refusal>
    requires { many ≤ most_gates }
    ensures { answer_number result ≡ row_fault (gates_by many own.now barred.now) trace row (front row_size words.now) }
{
    if words.len() < 2 {
        return Err(Refusal::RowRecord);
    }
    let gate = words[0];
    if many <= gate {
        return Err(Refusal::RowRecord);
    }
    let g = gate as usize;
    let n = words[1];
    if own[g] < n || words.len() - 2 < n as usize {
        return Err(Refusal::RowRecord);
    }
    if barred[g] == 1 {
        return Err(Refusal::MarkerRow);
    }
    let end = 2 + n as usize;
    if !all_below(&words[2..end]) {
        return Err(Refusal::NotAnElement);
    }
    if trace <= row {
        return Err(Refusal::TooMany);
    }
    Ok(())
}

// Tests the records of a piece, counted on from `count`, and gives how many rows there are then. Their
// gates are marked on the way, in one walk with the test; the marks mean something only where there is
// no fault.
pub(crate) fn test_rows(
    many: u64,
    own: &Marks,
    barred: &Marks,
    trace: u64,
    count: u64,
    piece: &[u64],
    used: &mut Marks,
) -> Result<u64, Refusal>
    requires { (many ≤ most_gates) × (count ≤ trace) × (trace ≤ 65536) }
    ensures number_value { answer_number result ≡ rows_fault (gates_by many own.now barred.now) trace count (rows_of piece.now) }
    ensures rows_value { IfOk result (λ rows. (rows ≡ count + length (rows_of piece.now)) × (used.new ≡ marked used.old (rows_of piece.now))) }
{
    let mut row = count;
    let mut i = 0; // goes by a record's length
    while i < piece.len() {
        row_fault(many, own, barred, trace, row, &piece[i..])?;
        let g = piece[i] as usize;
        used[g] = 1;
        row += 1;
        i += 2 + piece[i + 1] as usize;
    }
    Ok(row)
}
