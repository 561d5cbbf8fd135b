// Opening, the pieces and finishing, over the words of a plan and of a state. A refused opening leaves
// a state of zeros; any other refused call leaves the state's words as they were.
ghost use Rattle.std.specs.Prelude.{◌≡◌, ◌≤◌, length};
ghost use Rattle.refusal.specs.Refusal.{answer_number};
ghost use Rattle.pieces.specs.Setting.{cols};
ghost use Rattle.tree.specs.Plan.{parts_plan, plan_in};
ghost use Rattle.columns.specs.Given.{given_with, marked_with};
ghost use Rattle.columns.specs.Intake.{store_of, rows_answer, rows_left, s_words_answer, s_words_left, cells_answer, cells_left, tables_answer, tables_left, finish_answer, finish_left};
ghost use Rattle.encoding.specs.Encoding.{intake_of, plan_length};
ghost use Rattle.encoding.specs.Holding.{gates_in, nodes_in};
ghost use Rattle.capi.specs.Intake.{counted_after, marked_after, open_call, opened_state, opened_store, opened_words, state_words_after};

use columns::opening::open_parts;
use columns::take::{Counts, OPEN, take_cells, take_finish, take_rows, take_s_words, take_tables};
use encoding::encoding::{
    COUNT_AT, GATES_FROM, NODES_FROM, STATE_WORDS, TAIL_FROM, encode_counts, encode_progress,
};
use encoding::held::{held_at, marks_of, outlined_at};
use refusal::Refusal;
use selector::{MOST_GATES, Marks};
use tree::plan::{Outline, Parts};
use writer::hand::hand;

// A plan in parts: its outline, and its words of gates and nodes where they stand among a plan's or a state's.
pub(crate) fn parts_in(outline: Outline, words: &[u64]) -> Parts<'_>
    requires { plan_length ≤ length words.now }
    ensures { parts_plan result ≡ plan_in outline (gates_in words.now) (nodes_in words.now) }
{
    Parts {
        outline,
        gates: &words[GATES_FROM..COUNT_AT],
        nodes: &words[NODES_FROM..TAIL_FROM],
    }
}

// The answer of a call. Where it is accepted the state's counts and phase are written. The words of the
// plan are there, since no call after opening changes the plan, and the marks stay.
fn give_back(answer: Result<(), Refusal>, counts: Counts, state: &mut [u64]) -> Result<(), Refusal>
    ensures value { result ≡ answer }
    ensures state_after { state.new ≡ counted_after (given_with (answer_number answer) counts) state.old }
{
    if answer.is_ok() {
        encode_counts(counts, state);
    }
    answer
}

// The same with the marks.
pub(crate) fn give_marked_back(
    answer: Result<(), Refusal>,
    counts: Counts,
    used: Marks,
    state: &mut [u64],
) -> Result<(), Refusal>
    ensures value { result ≡ answer }
    ensures state_after { state.new ≡ marked_after (marked_with (answer_number answer) counts used) state.old }
{
    if answer.is_ok() {
        encode_progress(counts, used, state);
    }
    answer
}

// The answer of an opening. The state gets its plan's words and no piece so far, or zeros where the opening is refused.
fn give_opened(answer: Result<(), Refusal>, plan: &[u64], state: &mut [u64]) -> Result<(), Refusal>
    ensures value { result ≡ answer }
    ensures state_after { state.new ≡ opened_words (answer_number answer) plan.now state.old }
{
    if answer.is_err() {
        hand(&[0; STATE_WORDS], state);
        return answer;
    }
    hand(plan, state);
    let none = Counts {
        rows: 0,
        s_words: 0,
        cells: 0,
        tables: 0,
        table_rows: 0,
        phase: OPEN,
    };
    encode_progress(none, [0; MOST_GATES], state);
    answer
}

// Opens the columns of a plan. 19, then 10 for the state, then 10 for the columns, then 9; the state
// is then of zeros, where its slice has room.
pub fn kinchoyu_open(
    plan: &[u64],
    state: &mut [u64],
    constants: &mut [u64],
    copies: &mut [u64],
    scratch: &mut [u64],
    tables: &mut [u64],
) -> Result<(), Refusal>
    ensures value { answer_number result ≡ open_call plan.now state.old (store_of constants.old copies.old scratch.old tables.old) }
    ensures state_after { state.new ≡ opened_state plan.now state.old (store_of constants.old copies.old scratch.old tables.old) }
    ensures tables_after { store_of constants.new copies.new scratch.new tables.new ≡ opened_store plan.now state.old (store_of constants.old copies.old scratch.old tables.old) }
{
    let Some(outline) = outlined_at(plan) else {
        return give_opened(Err(Refusal::MadeUp), plan, state);
    };
    let parts = parts_in(outline, plan);
    if state.len() < STATE_WORDS {
        parts.fault()?;
        return Err(Refusal::ShortBuffer);
    }
    let answer = open_parts(parts, constants, copies, scratch, tables);
    give_opened(answer, plan, state)
}

// Row records: gate, number of constants, constants. 19, 10, 12, 11, 13.
pub fn kinchoyu_rows(state: &mut [u64], piece: &[u64], constants: &mut [u64]) -> Result<(), Refusal>
    ensures value { answer_number result ≡ (rows_answer (intake_of state.old) piece.now constants.old).number }
    ensures state_after { state.new ≡ state_words_after (rows_answer (intake_of state.old) piece.now constants.old) state.old }
    ensures constants_after { constants.new ≡ rows_left (intake_of state.old) piece.now constants.old }
{
    let held = held_at(state);
    let Some(outline) = held.outline else {
        return Err(Refusal::MadeUp);
    };
    let mut counts = held.counts;
    let mut used = marks_of(state);
    let parts = parts_in(outline, state);
    let answer = take_rows(parts, &mut counts, &mut used, piece, constants);
    give_marked_back(answer, counts, used, state)
}

// Words of the specialised constant columns, column by column. 19, 10, 13, 11.
pub fn kinchoyu_s_words(
    state: &mut [u64],
    piece: &[u64],
    constants: &mut [u64],
) -> Result<(), Refusal>
    ensures value { answer_number result ≡ (s_words_answer (intake_of state.old) piece.now constants.old).number }
    ensures state_after { state.new ≡ state_words_after (s_words_answer (intake_of state.old) piece.now constants.old) state.old }
    ensures constants_after { constants.new ≡ s_words_left (intake_of state.old) piece.now constants.old }
{
    let held = held_at(state);
    let Some(outline) = held.outline else {
        return Err(Refusal::MadeUp);
    };
    let mut counts = held.counts;
    let parts = parts_in(outline, state);
    let answer = take_s_words(parts, &mut counts, piece, constants);
    give_back(answer, counts, state)
}

// Cell words of the copy columns, column by column. 19, 10, 13, 14.
pub fn kinchoyu_cells(
    state: &mut [u64],
    piece: &[u64],
    copies: &mut [u64],
    scratch: &mut [u64],
) -> Result<(), Refusal>
    ensures value { answer_number result ≡ (cells_answer (intake_of state.old) piece.now (cols copies.old scratch.old)).number }
    ensures state_after { state.new ≡ state_words_after (cells_answer (intake_of state.old) piece.now (cols copies.old scratch.old)) state.old }
    ensures scratch_after { cols copies.new scratch.new ≡ cells_left (intake_of state.old) piece.now (cols copies.old scratch.old) }
{
    let held = held_at(state);
    let Some(outline) = held.outline else {
        return Err(Refusal::MadeUp);
    };
    let mut counts = held.counts;
    let parts = parts_in(outline, state);
    let answer = take_cells(parts, &mut counts, piece, copies, scratch);
    give_back(answer, counts, state)
}

// Table records: width, rows, contents row by row. 19, 10, 15, 11.
pub fn kinchoyu_tables(state: &mut [u64], piece: &[u64], tables: &mut [u64]) -> Result<(), Refusal>
    ensures value { answer_number result ≡ (tables_answer (intake_of state.old) piece.now tables.old).number }
    ensures state_after { state.new ≡ state_words_after (tables_answer (intake_of state.old) piece.now tables.old) state.old }
    ensures tables_after { tables.new ≡ tables_left (intake_of state.old) piece.now tables.old }
{
    let held = held_at(state);
    let Some(outline) = held.outline else {
        return Err(Refusal::MadeUp);
    };
    let mut counts = held.counts;
    let parts = parts_in(outline, state);
    let answer = take_tables(parts, &mut counts, piece, tables);
    give_back(answer, counts, state)
}

// Finishing; scratch is read alone. 19, 10, 16, 17, 18.
pub fn kinchoyu_finish(
    state: &mut [u64],
    copies: &mut [u64],
    scratch: &[u64],
) -> Result<(), Refusal>
    ensures value { answer_number result ≡ (finish_answer (intake_of state.old) (cols copies.old scratch.now)).number }
    ensures state_after { state.new ≡ state_words_after (finish_answer (intake_of state.old) (cols copies.old scratch.now)) state.old }
    ensures copies_after { copies.new ≡ finish_left (intake_of state.old) (cols copies.old scratch.now) }
{
    let held = held_at(state);
    let Some(outline) = held.outline else {
        return Err(Refusal::MadeUp);
    };
    let mut counts = held.counts;
    let used = marks_of(state);
    let parts = parts_in(outline, state);
    let answer = take_finish(parts, &mut counts, &used, copies, scratch);
    give_back(answer, counts, state)
}
