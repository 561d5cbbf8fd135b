// A whole circuit in one call. A refusal of any step leaves every word of the buffers as it was:
// the number is known before the first word is written.
ghost use Rattle.std.specs.Prelude.{◌≡◌};
ghost use Rattle.columns.specs.Intake.{state_in, setting_of, store_of, with_state};
ghost use Rattle.columns.specs.Sections.{sections_number};
ghost use Rattle.refusal.specs.Refusal.{answer_number};
ghost use Rattle.claim.specs.Chain.{chained};
ghost use Rattle.claim.specs.Keeping.{keeping};
ghost use Rattle.stage.specs.Circuit.{calls, staged_by, stage_answer, stage_left};
ghost use Rattle.stage.specs.Planned.{planned_left};

use columns::opening::open_parts;
use columns::sections::{Sections, sections_number};
use columns::take::{Counts, OPEN, take_cells, take_finish, take_rows, take_s_words, take_tables};
use parameters::parameters::Parameters;
use refusal::Refusal;
use selector::{MOST_GATES, Marks};
use tree::plan::Plan;
use tree::planning::plan;

// Every call after opening, each on the counts that the call before it left; finishing gets the
// marks that the rows made. A refused call changes nothing, and the calls after it are made all the same.
fn give_sections(
    plan: &Plan,
    mut counts: Counts,
    mut used: Marks,
    rows: &[u64],
    s_words: &[u64],
    cells: &[u64],
    table_words: &[u64],
    constants: &mut [u64],
    copies: &mut [u64],
    scratch: &mut [u64],
    tables: &mut [u64],
)
    ensures { store_of constants.new copies.new scratch.new tables.new ≡ (chained (calls rows.now s_words.now cells.now table_words.now) (keeping (with_state plan.now (state_in counts used)) constants.old copies.old scratch.old tables.old)).store }
{
    let parts = plan.parts();
    let _ = take_rows(parts, &mut counts, &mut used, rows, constants);
    let _ = take_s_words(parts, &mut counts, s_words, constants);
    let _ = take_cells(parts, &mut counts, cells, copies, scratch);
    let _ = take_tables(parts, &mut counts, table_words, tables);
    let _ = take_finish(parts, &mut counts, &used, copies, scratch);
}

// What refuses a planned circuit. It is not inlined, so that its room on the stack is free again while the circuit runs.
#[inline(never)]
fn test_planned(
    plan: &Plan,
    sections: Sections<'_>,
    constants: &[u64],
    copies: &[u64],
    scratch: &[u64],
    tables: &[u64],
) -> Result<(), Refusal>
    ensures { answer_number result ≡ sections_number (setting_of plan.now) (store_of constants.now copies.now scratch.now tables.now) sections.entry.rows.now sections.entry.s_words.now sections.entry.cells.now sections.entry.tables.now }
{
    sections_number(*plan, sections, constants, copies, scratch, tables)
}

// Opening, and every later call, each on the state that the call before it left, unless one of
// them would be refused: then its refusal. The plan is opened in parts, so that no state stands beside it on the stack. It is not inlined, so that planning's room on the stack is not beside its own.
#[inline(never)]
fn run_planned(
    plan: Plan,
    rows: &[u64],
    s_words: &[u64],
    cells: &[u64],
    table_words: &[u64],
    constants: &mut [u64],
    copies: &mut [u64],
    scratch: &mut [u64],
    tables: &mut [u64],
) -> Result<(), Refusal>
    ensures value { answer_number result ≡ sections_number (setting_of plan) (store_of constants.old copies.old scratch.old tables.old) rows.now s_words.now cells.now table_words.now }
    ensures tables_after { store_of constants.new copies.new scratch.new tables.new ≡ planned_left plan rows.now s_words.now cells.now table_words.now (store_of constants.old copies.old scratch.old tables.old) }
{
    let sections = Sections {
        rows,
        s_words,
        cells,
        tables: table_words,
    };
    test_planned(&plan, sections, constants, copies, scratch, tables)?;
    open_parts(plan.parts(), constants, copies, scratch, tables)?;
    let none = Counts {
        rows: 0,
        s_words: 0,
        cells: 0,
        tables: 0,
        table_rows: 0,
        phase: OPEN,
    };
    give_sections(
        &plan,
        none,
        [0; MOST_GATES],
        rows,
        s_words,
        cells,
        table_words,
        constants,
        copies,
        scratch,
        tables,
    );
    Ok(())
}

// Plans, opens, gives every section as one piece and finishes; hands back the plan.
pub fn run_sections(
    parameters: Parameters,
    gates: &[u64],
    rows: &[u64],
    s_words: &[u64],
    cells: &[u64],
    table_words: &[u64],
    constants: &mut [u64],
    copies: &mut [u64],
    scratch: &mut [u64],
    tables: &mut [u64],
) -> Result<Plan, Refusal>
    ensures value { staged_by result ≡ stage_answer parameters gates.now rows.now s_words.now cells.now table_words.now (store_of constants.old copies.old scratch.old tables.old) }
    ensures tables_after { store_of constants.new copies.new scratch.new tables.new ≡ stage_left parameters gates.now rows.now s_words.now cells.now table_words.now (store_of constants.old copies.old scratch.old tables.old) }
{
    let plan = plan(parameters, gates)?;
    run_planned(
        plan,
        rows,
        s_words,
        cells,
        table_words,
        constants,
        copies,
        scratch,
        tables,
    )?;
    Ok(plan)
}
