// What refuses a whole circuit whose sections come as one piece each: opening, then the first
// faulty section, then finishing. No word is written, so that a refusal of any of them leaves
// the buffers as they were. Also without buffers, and of a circuit before it is padded.
ghost use Rattle.std.specs.Prelude.{◌≡◌, List, ℕ, ◌+◌, ◌≤◌, length, IfOk};
ghost use Rattle.base.specs.Limits.{most_gates};
ghost use Rattle.base.specs.Firsts.{or_number};
ghost use Rattle.refusal.specs.Refusal.{answer_number};
ghost use Rattle.labels.specs.Ranges.{longest_trace};
ghost use Rattle.tree.specs.Answers.{rows_told};
ghost use Rattle.tree.specs.Plan.{gate_rows_answer, plan_fault, plan_in};
ghost use Rattle.pieces.specs.Records.{rows_of};
ghost use Rattle.pieces.specs.Rows.{marked};
ghost use Rattle.columns.specs.Intake.{state_in, setting_of, store_of};
ghost use Rattle.columns.specs.Rooms.{Small};
ghost use Rattle.columns.specs.Sections.{sections_number, later_under, pieces_under, last_tests, contents_number, contents_call, unpadded_last, unpadded_call};

use crate::cells::cells_fault;
use crate::finishing::all_used;
use crate::rooms::room_number;
use crate::row_tests::test_rows;
use crate::s_words::s_words_fault;
use crate::tables::{TableStack, tables_fault};
use crate::take::{Counts, OPEN, complete};
use labels::LONGEST_TRACE;
use refusal::Refusal;
use selector::{MOST_GATES, Marks};
use tree::gate_rows::GateRows;
use tree::plan::{Outline, Plan};

// The sections of a circuit, each as one piece.
#[derive(Clone, Copy)]
pub struct Sections<'a> {
    pub rows: &'a [u64],
    pub s_words: &'a [u64],
    pub cells: &'a [u64],
    pub tables: &'a [u64],
}

// The first fault of S words, cells and tables, each section from its start on. S words and cells are
// counted against columns of `height` words.
fn later_fault(plan: Plan, height: u64, sections: Sections<'_>) -> Result<(), Refusal>
    requires { (plan_fault plan ≡ 0) × (height ≤ longest_trace) }
    ensures { answer_number result ≡ later_under (setting_of plan) height sections.entry.s_words.now sections.entry.cells.now sections.entry.tables.now }
{
    s_words_fault(plan.specialised * height, 0, sections.s_words)?;
    cells_fault(plan.copy * height, plan.variables, 0, sections.cells)?;
    let lookup = plan.lookup;
    let width = lookup.lookup_width();
    let none = TableStack { count: 0, high: 0 };
    tables_fault(0 < lookup.mode(), width, plan.trace, none, sections.tables)
}

// 9, then the first fault of the four sections, for a sound plan and what it answers for its gates.
// Without a fault it gives the number of rows, and the marks are those of the rows.
fn test_pieces(
    plan: Plan,
    gates: GateRows,
    height: u64,
    sections: Sections<'_>,
    used: &mut Marks,
) -> Result<u64, Refusal>
    requires { (plan_fault plan ≡ 0) × (gates ≡ rows_told (gate_rows_answer plan)) × (height ≤ longest_trace) }
    ensures number_value { answer_number result ≡ or_number (setting_of plan).labelled (pieces_under (setting_of plan) height sections.entry.rows.now sections.entry.s_words.now sections.entry.cells.now sections.entry.tables.now) }
    ensures rows_value { IfOk result (λ given. (given ≡ 0 + length (rows_of sections.entry.rows.now)) × (used.new ≡ marked used.old (rows_of sections.entry.rows.now))) }
{
    labels::representatives(plan.trace, plan.copy)?;
    let given = test_rows(
        gates.many,
        &gates.own,
        &gates.barred,
        plan.trace,
        0,
        sections.rows,
        used,
    )?;
    later_fault(plan, height, sections)?;
    Ok(given)
}

// 16 and 17, of what came in without a fault.
fn last_tests(outline: Outline, counts: Counts, used: Marks) -> Result<(), Refusal>
    requires { Small outline × (outline.gate_count ≤ most_gates) }
    ensures { (gs ns : List ℕ) → answer_number result ≡ last_tests (setting_of (plan_in outline gs ns)) (state_in counts used) }
{
    if !complete(outline, counts) {
        return Err(Refusal::Incomplete);
    }
    if !all_used(outline.gate_count, &used) {
        return Err(Refusal::UnusedGate);
    }
    Ok(())
}

// What is wrong with a circuit by itself, for a sound plan and what it answers for its gates.
fn contents_of(plan: Plan, gates: GateRows, sections: Sections<'_>) -> Result<(), Refusal>
    requires { (plan_fault plan ≡ 0) × (gates ≡ rows_told (gate_rows_answer plan)) }
    ensures { answer_number result ≡ contents_number (setting_of plan) sections.entry.rows.now sections.entry.s_words.now sections.entry.cells.now sections.entry.tables.now }
{
    let mut used = [0; MOST_GATES];
    let given = test_pieces(plan, gates, plan.trace, sections, &mut used)?;
    let counts = Counts {
        rows: given,
        s_words: sections.s_words.len() as u64,
        cells: sections.cells.len() as u64,
        tables: 0,
        table_rows: 0,
        phase: OPEN,
    };
    last_tests(plan.outline(), counts, used)
}

// The first refusal of a circuit for which no buffer is lent: 19, 9, then those of rows, S words,
// cells, tables and finishing. 10 and 18 are left aside.
pub fn contents_number(plan: Plan, sections: Sections<'_>) -> Result<(), Refusal>
    ensures { answer_number result ≡ contents_call (setting_of plan) sections.entry.rows.now sections.entry.s_words.now sections.entry.cells.now sections.entry.tables.now }
{
    contents_of(plan, plan.parts().rows()?, sections)
}

// 16 and 17 of a circuit whose missing rows become rows of `gate`.
fn unpadded_last(
    plan: Plan,
    height: u64,
    gate: u64,
    s_words: usize,
    cells: usize,
    mut used: Marks,
) -> Result<(), Refusal>
    requires { (plan_fault plan ≡ 0) × (height ≤ longest_trace) }
    ensures { answer_number result ≡ unpadded_last (setting_of plan) height gate s_words cells used }
{
    if s_words as u64 != plan.specialised * height {
        return Err(Refusal::Incomplete);
    }
    if cells as u64 != plan.copy * height {
        return Err(Refusal::Incomplete);
    }
    if gate < MOST_GATES as u64 {
        used[gate as usize] = 1;
    }
    if !all_used(plan.gate_count, &used) {
        return Err(Refusal::UnusedGate);
    }
    Ok(())
}

// The same of a circuit that is still to be padded to the plan's trace length: S words and cells are
// those of columns of `height` words, and the missing rows become rows of `gate`. 19, 1, then as above.
pub fn unpadded_number(
    plan: Plan,
    height: u64,
    gate: u64,
    sections: Sections<'_>,
) -> Result<(), Refusal>
    ensures { answer_number result ≡ unpadded_call (setting_of plan) height gate sections.entry.rows.now sections.entry.s_words.now sections.entry.cells.now sections.entry.tables.now }
{
    let gates = plan.parts().rows()?;
    if LONGEST_TRACE < height {
        return Err(Refusal::Parameter);
    }
    let mut used = [0; MOST_GATES];
    test_pieces(plan, gates, height, sections, &mut used)?;
    unpadded_last(
        plan,
        height,
        gate,
        sections.s_words.len(),
        sections.cells.len(),
        used,
    )
}

// The first refusal of opening, rows, S words, cells, tables and finishing; 18 is left aside.
// Of the four lent buffers only the lengths are read.
pub fn sections_number(
    plan: Plan,
    sections: Sections<'_>,
    constants: &[u64],
    copies: &[u64],
    scratch: &[u64],
    tables: &[u64],
) -> Result<(), Refusal>
    ensures { answer_number result ≡ sections_number (setting_of plan) (store_of constants.now copies.now scratch.now tables.now) sections.entry.rows.now sections.entry.s_words.now sections.entry.cells.now sections.entry.tables.now }
{
    // this is the plan's test too, which is not made a second time
    let gates = plan.parts().rows()?;
    room_number(plan.outline(), constants, copies, scratch, tables)?;
    contents_of(plan, gates, sections)
}
