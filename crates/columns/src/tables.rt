// Lookup tables: stacked, each row with its table's number.
ghost use Rattle.std.specs.Prelude.{◌≡◌, true, ◌+◌, ◌*◌, ◌≤◌, length};
ghost use Rattle.refusal.specs.Refusal.{answer_number};
ghost use Rattle.pieces.specs.Records.{table_size, tables_of};
ghost use Rattle.pieces.specs.Front.{front};
ghost use Rattle.pieces.specs.Writing.{put_lines};
ghost use Rattle.pieces.specs.Tables.{table_fault, tables_fault, entries, table_lines, sum_rows};
ghost use Rattle.columns.specs.Stacked.{stack};

use crate::records::{all_below, write_lines, write_same};
use refusal::Refusal;

pub const MOST_TABLES: u64 = 255;

// How many tables there are, and their rows in all.
#[derive(Clone, Copy)]
pub struct TableStack {
    pub count: u64,
    pub high: u64,
}

// Tests the record at the front of the words, on top of the tables `below`.
fn table_fault(
    lookup: bool,
    width: u64,
    trace: u64,
    below: TableStack,
    words: &[u64],
) -> Result<(), Refusal>
    requires { (width ≤ 16) × (below.high ≤ trace) × (trace ≤ 65536) }
    ensures { answer_number result ≡ table_fault lookup width trace (stack below.count below.high) (front table_size words.now) }
{
    if !lookup || words.len() < 2 || words[0] != width || MOST_TABLES <= below.count {
        return Err(Refusal::Table);
    }
    let n = words[1];
    if trace - below.high < n {
        return Err(Refusal::Table);
    }
    let size = (width * n) as usize;
    if words.len() - 2 < size {
        return Err(Refusal::Table);
    }
    let end = 2 + size;
    if !all_below(&words[2..end]) {
        return Err(Refusal::NotAnElement);
    }
    Ok(())
}

// Tests the records of a piece, each after those before it.
pub(crate) fn tables_fault(
    lookup: bool,
    width: u64,
    trace: u64,
    below: TableStack,
    piece: &[u64],
) -> Result<(), Refusal>
    requires { (width ≤ 16) × (below.count ≤ 255) × (below.high ≤ trace) × (trace ≤ 65536) }
    ensures { answer_number result ≡ tables_fault lookup width trace (stack below.count below.high) (tables_of piece.now) }
{
    let mut stack = below;
    let mut i = 0; // goes by a record's length
    while i < piece.len() {
        table_fault(lookup, width, trace, stack, &piece[i..])?;
        let n = piece[i + 1];
        stack.count += 1;
        stack.high += n;
        i += 2 + (width * n) as usize;
    }
    Ok(())
}

// The rows of one table, from the row `high` on: their words, then a column of its number.
fn write_table(
    width: usize,
    trace: usize,
    number: u64,
    high: usize,
    rows: usize,
    words: &[u64],
    tables: &mut [u64],
)
    requires width_bound { (width ≤ 16) × (trace ≤ 65536) × (high + rows ≤ trace) × (length words.now ≡ width * rows) }
    requires trace_in_bounds { (width + 1) * trace ≤ length tables.old }
    ensures { tables.new ≡ put_lines (width + 1) trace high (entries width number rows words.now) tables.old }
{
    write_lines(width, width, trace, high, rows, words, tables);
    write_same(number, high + width * trace, rows as u64, tables);
}

// The tables of a piece without a fault, on top of the tables `below`.
pub(crate) fn write_tables(
    width: u64,
    trace: u64,
    below: TableStack,
    piece: &[u64],
    tables: &mut [u64],
) -> TableStack
    requires width_bound { (width ≤ 16) × (trace ≤ 65536) × (below.count ≤ 255) × (below.high ≤ trace) × ((width + 1) * trace ≤ length tables.old) }
    requires piece_value { tables_fault true width trace (stack below.count below.high) (tables_of piece.now) ≡ 0 }
    ensures count_value { (result.count ≡ below.count + length (tables_of piece.now)) × (result.high ≡ sum_rows below.high (tables_of piece.now)) }
    ensures tables_after { tables.new ≡ put_lines (width + 1) trace below.high (table_lines width below.count (tables_of piece.now)) tables.old }
{
    let mut stack = below;
    let mut i = 0; // goes by a record's length
    while i < piece.len() {
        let n = piece[i + 1];
        let start = i + 2;
        let end = start + (width * n) as usize;
        stack.count += 1;
        write_table(
            width as usize,
            trace as usize,
            stack.count,
            stack.high as usize,
            n as usize,
            &piece[start..end],
            tables,
        );
        stack.high += n;
        i = end;
    }
    stack
}
