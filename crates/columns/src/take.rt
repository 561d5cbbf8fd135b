// The calls on a state in parts: the plan's words are lent. So a caller who holds a state as words
// copies no plan. A refusal leaves counts and marks as they were and writes nothing.
ghost use Rattle.std.specs.Prelude.{◌≡◌, List, [], ℕ};
ghost use Rattle.base.specs.Pick.{pick};
ghost use Rattle.refusal.specs.Refusal.{answer_number};
ghost use Rattle.tree.specs.Plan.{parts_plan, plan_in};
ghost use Rattle.pieces.specs.Setting.{cols, counts_fit, stands};
ghost use Rattle.pieces.specs.Finishing.{complete};
ghost use Rattle.columns.specs.Intake.{state_in, setting_of, with_state, rows_answer, rows_left, s_words_answer, s_words_left, cells_answer, cells_left, tables_answer, tables_left, finish_answer, finish_left};
ghost use Rattle.columns.specs.Given.{given_of, given_with, marked_of, marked_with};
ghost use Rattle.columns.specs.Rooms.{Small};

use crate::cells::{cells_fault, place_cells};
use crate::finishing::{all_used, scratch_fine, write_firsts};
use crate::records::write_words;
use crate::rooms::rooms_of;
use crate::row_tests::test_rows;
use crate::rows::write_rows;
use crate::s_words::s_words_fault;
use crate::tables::{MOST_TABLES, TableStack, tables_fault, write_tables};
use refusal::Refusal;
use selector::Marks;
use tree::plan::{Outline, Parts};

// The phases of a state. Any other word is no open state either.
pub const NEVER: u64 = 0;

pub const OPEN: u64 = 1;

pub const FINISHED: u64 = 2;

// How much of each section came in so far, and the phase: a state without its plan and its marks.
#[derive(Clone, Copy)]
pub struct Counts {
    pub rows: u64,
    pub s_words: u64,
    pub cells: u64,
    pub tables: u64,
    pub table_rows: u64,
    pub phase: u64,
}

// Whether no count is past its section.
#[tactic(auto, using(tree::proofs::TestLaws::tests), unfolding(pieces::specs::Setting::counts_fit))]
fn counts_fit(outline: Outline, counts: Counts) -> bool
    requires { Small outline }
    ensures { (gs ns us : List ℕ) → result ≡ counts_fit (setting_of (plan_in outline gs ns)) (state_in counts us) }
{
    let lookup = outline.lookup;
    let (most_tables, most_rows) = if 0 < lookup.mode() {
        (MOST_TABLES, outline.trace)
    } else {
        (0, 0)
    };
    counts.rows <= outline.trace
        && counts.s_words <= outline.specialised * outline.trace
        && counts.cells <= outline.copy * outline.trace
        && counts.tables <= most_tables
        && counts.table_rows <= most_rows
}

// Refuses a made-up state; one that is none has a sound plan, is open, and has no count past its section.
fn stands(parts: Parts<'_>, counts: Counts) -> Result<(), Refusal>
    ensures { (us : List ℕ) → answer_number result ≡ pick (stands (setting_of (parts_plan parts.entry)) (state_in counts us)) 0 19 }
{
    parts.fault()?;
    if counts.phase != OPEN || !counts_fit(parts.outline, counts) {
        return Err(Refusal::MadeUp);
    }
    Ok(())
}

// Row records: gate, number of constants, constants.
pub fn take_rows(
    parts: Parts<'_>,
    counts: &mut Counts,
    used: &mut Marks,
    piece: &[u64],
    constants: &mut [u64],
) -> Result<(), Refusal>
    ensures value { marked_with (answer_number result) counts.new used.new ≡ marked_of (rows_answer (with_state (parts_plan parts.entry) (state_in counts.old used.old)) piece.now constants.old) }
    ensures constants_after { constants.new ≡ rows_left (with_state (parts_plan parts.entry) (state_in counts.old used.old)) piece.now constants.old }
{
    // this is the plan's test too, which is not made a second time
    let gates = parts.rows()?;
    let outline = parts.outline;
    if counts.phase != OPEN || !counts_fit(outline, *counts) {
        return Err(Refusal::MadeUp);
    }
    if constants.len() < rooms_of(outline).constants {
        return Err(Refusal::ShortBuffer);
    }
    // a refused piece marks no gate
    let mut marks = *used;
    let rows = test_rows(
        gates.many,
        &gates.own,
        &gates.barred,
        outline.trace,
        counts.rows,
        piece,
        &mut marks,
    )?;
    write_rows(
        outline.told.constants,
        outline.trace,
        counts.rows,
        &gates,
        piece,
        constants,
    );
    counts.rows = rows;
    *used = marks;
    Ok(())
}

// Words of the specialised constant columns, column by column.
pub fn take_s_words(
    parts: Parts<'_>,
    counts: &mut Counts,
    piece: &[u64],
    constants: &mut [u64],
) -> Result<(), Refusal>
    ensures value { given_with (answer_number result) counts.new ≡ given_of (s_words_answer (with_state (parts_plan parts.entry) (state_in counts.old [])) piece.now constants.old) }
    ensures constants_after { constants.new ≡ s_words_left (with_state (parts_plan parts.entry) (state_in counts.old [])) piece.now constants.old }
{
    stands(parts, *counts)?;
    let outline = parts.outline;
    if constants.len() < rooms_of(outline).constants {
        return Err(Refusal::ShortBuffer);
    }
    let total = outline.specialised * outline.trace;
    s_words_fault(total, counts.s_words, piece)?;
    let at = (outline.told.constants * outline.trace + counts.s_words) as usize;
    write_words(at, piece, constants);
    counts.s_words += piece.len() as u64;
    Ok(())
}

// Cell words of the copy columns, column by column.
pub fn take_cells(
    parts: Parts<'_>,
    counts: &mut Counts,
    piece: &[u64],
    copies: &mut [u64],
    scratch: &mut [u64],
) -> Result<(), Refusal>
    ensures value { given_with (answer_number result) counts.new ≡ given_of (cells_answer (with_state (parts_plan parts.entry) (state_in counts.old [])) piece.now (cols copies.old scratch.old)) }
    ensures scratch_after { cols copies.new scratch.new ≡ cells_left (with_state (parts_plan parts.entry) (state_in counts.old [])) piece.now (cols copies.old scratch.old) }
{
    stands(parts, *counts)?;
    let outline = parts.outline;
    let rooms = rooms_of(outline);
    if copies.len() < rooms.copies || scratch.len() < rooms.scratch {
        return Err(Refusal::ShortBuffer);
    }
    let total = outline.copy * outline.trace;
    cells_fault(total, outline.variables, counts.cells, piece)?;
    place_cells(counts.cells, piece, copies, scratch);
    counts.cells += piece.len() as u64;
    Ok(())
}

// Table records: width, rows, contents row by row.
pub fn take_tables(
    parts: Parts<'_>,
    counts: &mut Counts,
    piece: &[u64],
    tables: &mut [u64],
) -> Result<(), Refusal>
    ensures value { given_with (answer_number result) counts.new ≡ given_of (tables_answer (with_state (parts_plan parts.entry) (state_in counts.old [])) piece.now tables.old) }
    ensures tables_after { tables.new ≡ tables_left (with_state (parts_plan parts.entry) (state_in counts.old [])) piece.now tables.old }
{
    stands(parts, *counts)?;
    let outline = parts.outline;
    if tables.len() < rooms_of(outline).tables {
        return Err(Refusal::ShortBuffer);
    }
    let lookup = outline.lookup;
    let width = lookup.lookup_width();
    let looked = 0 < lookup.mode();
    let below = TableStack {
        count: counts.tables,
        high: counts.table_rows,
    };
    tables_fault(looked, width, outline.trace, below, piece)?;
    // without a lookup mode no record comes so far
    if looked {
        let stack = write_tables(width, outline.trace, below, piece, tables);
        counts.tables = stack.count;
        counts.table_rows = stack.high;
    }
    Ok(())
}

// Whether rows, S words and cells are all there.
#[tactic(auto, using(tree::proofs::TestLaws::tests), unfolding(pieces::specs::Finishing::complete))]
pub(crate) fn complete(outline: Outline, counts: Counts) -> bool
    requires { Small outline }
    ensures { (gs ns us : List ℕ) → result ≡ complete (setting_of (plan_in outline gs ns)) (state_in counts us) }
{
    counts.rows == outline.trace
        && counts.s_words == outline.specialised * outline.trace
        && counts.cells == outline.copy * outline.trace
}

// Finishing: each seen variable's value goes to its first cell, by rising index. Nothing is
// written unless everything is complete, every gate is in a row and all of scratch is fine.
pub fn take_finish(
    parts: Parts<'_>,
    counts: &mut Counts,
    used: &Marks,
    copies: &mut [u64],
    scratch: &[u64],
) -> Result<(), Refusal>
    ensures value { given_with (answer_number result) counts.new ≡ given_of (finish_answer (with_state (parts_plan parts.entry) (state_in counts.old used.now)) (cols copies.old scratch.now)) }
    ensures copies_after { copies.new ≡ finish_left (with_state (parts_plan parts.entry) (state_in counts.old used.now)) (cols copies.old scratch.now) }
{
    stands(parts, *counts)?;
    let outline = parts.outline;
    let rooms = rooms_of(outline);
    if copies.len() < rooms.copies || scratch.len() < rooms.scratch {
        return Err(Refusal::ShortBuffer);
    }
    if !complete(outline, *counts) {
        return Err(Refusal::Incomplete);
    }
    if !all_used(outline.gate_count, used) {
        return Err(Refusal::UnusedGate);
    }
    let cells = outline.copy * outline.trace;
    if !scratch_fine(outline.variables, cells, scratch) {
        return Err(Refusal::Scratch);
    }
    write_firsts(outline.variables, cells, scratch, copies);
    counts.phase = FINISHED;
    Ok(())
}
