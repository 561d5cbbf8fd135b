// The library for callers in C and Rust, `libkinchoyu.a`: every export calls the function of its name in `capi`,
// tells its answer as a number, and promises what that promises.
#![tactic(auto)]

ghost use Rattle.capi.specs.Calls.{list_after, ran_over};
ghost use Rattle.capi.specs.Intake.{open_call, opened_state, opened_store, state_words_after};
ghost use Rattle.capi.specs.Listed.{run_call, run_left, run_plan};
ghost use Rattle.capi.specs.Padded.{pad_call, pad_count, pad_out};
ghost use Rattle.capi.specs.Planning.{label_call, label_left, path_call, path_left, plan_call, plan_left, representatives_call, representatives_left, stats_call, stats_left, table_id_call, table_id_left};
ghost use Rattle.columns.specs.Intake.{cells_answer, cells_left, finish_answer, finish_left, rows_answer, rows_left, s_words_answer, s_words_left, store_of, tables_answer, tables_left};
ghost use Rattle.encoding.specs.Encoding.{intake_of, plan_length, state_length};
ghost use Rattle.pieces.specs.Setting.{cols};
ghost use Rattle.std.specs.Prelude.{◌≡◌};

use refusal::answer_number;

// How many words a plan has.
#[unsafe(no_mangle)]
pub extern "C" fn kinchoyu_plan_words() -> u64
    ensures { result ≡ plan_length }
{
    capi::kinchoyu_plan_words()
}

// How many words a state has.
#[unsafe(no_mangle)]
pub extern "C" fn kinchoyu_state_words() -> u64
    ensures { result ≡ state_length }
{
    capi::kinchoyu_state_words()
}

// The plan for parameters (N, C, A, S, V, mode, W, share flag) and gates (kind, degree, constants
// each). 20, then 10 for a plan that is too short, then planning's own numbers. 20 and planning's own
// leave a plan of zeros, where there is room.
#[unsafe(no_mangle)]
pub extern "C" fn kinchoyu_plan(parameters: &[u64], gates: &[u64], plan: &mut [u64]) -> u64
    ensures value { result ≡ plan_call parameters.now gates.now plan.old }
    ensures plan_after { plan.new ≡ plan_left parameters.now gates.now plan.old }
{
    answer_number(&capi::planning::kinchoyu_plan(parameters, gates, plan))
}

// Bits and length of a gate's path, and 1 where it has no selector; bit i, from the least, is step i
// from the root. 19, then 10 for the result, then 12; after 19 and 12 all three are 0.
#[unsafe(no_mangle)]
pub extern "C" fn kinchoyu_path(plan: &[u64], gate: u64, out: &mut [u64]) -> u64
    ensures value { result ≡ path_call plan.now gate out.old }
    ensures out_after { out.new ≡ path_left plan.now gate out.old }
{
    answer_number(&capi::planning::kinchoyu_path(plan, gate, out))
}

// How many table-id columns there are, none or one, and its index. 19, then 10 for the result; a
// refusal writes nothing.
#[unsafe(no_mangle)]
pub extern "C" fn kinchoyu_table_id(plan: &[u64], out: &mut [u64]) -> u64
    ensures value { result ≡ table_id_call plan.now out.old }
    ensures out_after { out.new ≡ table_id_left plan.now out.old }
{
    answer_number(&capi::planning::kinchoyu_table_id(plan, out))
}

// D, K and F. 19, then 10 for the result; a refusal writes nothing.
#[unsafe(no_mangle)]
pub extern "C" fn kinchoyu_stats(plan: &[u64], out: &mut [u64]) -> u64
    ensures value { result ≡ stats_call plan.now out.old }
    ensures out_after { out.new ≡ stats_left plan.now out.old }
{
    answer_number(&capi::planning::kinchoyu_stats(plan, out))
}

// The label of the cell whose number is cN + r. 10 for the result, then 1 and 9, which leave 0.
#[unsafe(no_mangle)]
pub extern "C" fn kinchoyu_label(n: u64, c: u64, cell: u64, out: &mut [u64]) -> u64
    ensures value { result ≡ label_call n c cell out.old }
    ensures out_after { out.new ≡ label_left n c cell out.old }
{
    answer_number(&capi::planning::kinchoyu_label(n, c, cell, out))
}

// The representatives of the columns, 64 words, their N-th powers, 64 words, and how many N-th powers
// were taken. 10 for the result, then 1 and 9, which leave zeros.
#[unsafe(no_mangle)]
pub extern "C" fn kinchoyu_representatives(n: u64, c: u64, out: &mut [u64]) -> u64
    ensures value { result ≡ representatives_call n c out.old }
    ensures out_after { out.new ≡ representatives_left n c out.old }
{
    answer_number(&capi::planning::kinchoyu_representatives(n, c, out))
}

// Opens the columns of a plan. 19, then 10 for the state, then 10 for the columns, then 9; the state
// is then of zeros, where its slice has room.
#[unsafe(no_mangle)]
pub extern "C" fn kinchoyu_open(
    plan: &[u64],
    state: &mut [u64],
    constants: &mut [u64],
    copies: &mut [u64],
    scratch: &mut [u64],
    tables: &mut [u64],
) -> u64
    ensures value { result ≡ open_call plan.now state.old (store_of constants.old copies.old scratch.old tables.old) }
    ensures state_after { state.new ≡ opened_state plan.now state.old (store_of constants.old copies.old scratch.old tables.old) }
    ensures tables_after { store_of constants.new copies.new scratch.new tables.new ≡ opened_store plan.now state.old (store_of constants.old copies.old scratch.old tables.old) }
{
    answer_number(&capi::intake::kinchoyu_open(plan, state, constants, copies, scratch, tables))
}

// Row records: gate, number of constants, constants. 19, 10, 12, 11, 13.
#[unsafe(no_mangle)]
pub extern "C" fn kinchoyu_rows(state: &mut [u64], piece: &[u64], constants: &mut [u64]) -> u64
    ensures value { result ≡ (rows_answer (intake_of state.old) piece.now constants.old).number }
    ensures state_after { state.new ≡ state_words_after (rows_answer (intake_of state.old) piece.now constants.old) state.old }
    ensures constants_after { constants.new ≡ rows_left (intake_of state.old) piece.now constants.old }
{
    answer_number(&capi::intake::kinchoyu_rows(state, piece, constants))
}

// Words of the specialised constant columns, column by column. 19, 10, 13, 11.
#[unsafe(no_mangle)]
pub extern "C" fn kinchoyu_s_words(state: &mut [u64], piece: &[u64], constants: &mut [u64]) -> u64
    ensures value { result ≡ (s_words_answer (intake_of state.old) piece.now constants.old).number }
    ensures state_after { state.new ≡ state_words_after (s_words_answer (intake_of state.old) piece.now constants.old) state.old }
    ensures constants_after { constants.new ≡ s_words_left (intake_of state.old) piece.now constants.old }
{
    answer_number(&capi::intake::kinchoyu_s_words(state, piece, constants))
}

// Cell words of the copy columns, column by column. 19, 10, 13, 14.
#[unsafe(no_mangle)]
pub extern "C" fn kinchoyu_cells(
    state: &mut [u64],
    piece: &[u64],
    copies: &mut [u64],
    scratch: &mut [u64],
) -> u64
    ensures value { result ≡ (cells_answer (intake_of state.old) piece.now (cols copies.old scratch.old)).number }
    ensures state_after { state.new ≡ state_words_after (cells_answer (intake_of state.old) piece.now (cols copies.old scratch.old)) state.old }
    ensures scratch_after { cols copies.new scratch.new ≡ cells_left (intake_of state.old) piece.now (cols copies.old scratch.old) }
{
    answer_number(&capi::intake::kinchoyu_cells(state, piece, copies, scratch))
}

// Table records: width, rows, contents row by row. 19, 10, 15, 11.
#[unsafe(no_mangle)]
pub extern "C" fn kinchoyu_tables(state: &mut [u64], piece: &[u64], tables: &mut [u64]) -> u64
    ensures value { result ≡ (tables_answer (intake_of state.old) piece.now tables.old).number }
    ensures state_after { state.new ≡ state_words_after (tables_answer (intake_of state.old) piece.now tables.old) state.old }
    ensures tables_after { tables.new ≡ tables_left (intake_of state.old) piece.now tables.old }
{
    answer_number(&capi::intake::kinchoyu_tables(state, piece, tables))
}

// Finishing; scratch is read alone. 19, 10, 16, 17, 18.
#[unsafe(no_mangle)]
pub extern "C" fn kinchoyu_finish(state: &mut [u64], copies: &mut [u64], scratch: &[u64]) -> u64
    ensures value { result ≡ (finish_answer (intake_of state.old) (cols copies.old scratch.now)).number }
    ensures state_after { state.new ≡ state_words_after (finish_answer (intake_of state.old) (cols copies.old scratch.now)) state.old }
    ensures copies_after { copies.new ≡ finish_left (intake_of state.old) (cols copies.old scratch.now) }
{
    answer_number(&capi::intake::kinchoyu_finish(state, copies, scratch))
}

// Makes the calls of a list in order, each with the state that the one before it left. For each call
// the list has its kind (1 rows, 2 S words, 3 cells, 4 tables, 5 finishing), the number of its words,
// and the words; those of a finishing are not read. Each call's number goes to `numbers`. 20 for a list that is
// cut short or has another kind, then 10 for the numbers; both write nothing. Else 0, whatever the calls' numbers are.
#[unsafe(no_mangle)]
pub extern "C" fn kinchoyu_calls(
    state: &mut [u64],
    list: &[u64],
    numbers: &mut [u64],
    constants: &mut [u64],
    copies: &mut [u64],
    scratch: &mut [u64],
    tables: &mut [u64],
) -> u64
    ensures value { result ≡ (ran_over state.old list.now numbers.old (store_of constants.old copies.old scratch.old tables.old)).answer.number }
    ensures state_after { state.new ≡ list_after (ran_over state.old list.now numbers.old (store_of constants.old copies.old scratch.old tables.old)).answer state.old }
    ensures numbers_after { numbers.new ≡ (ran_over state.old list.now numbers.old (store_of constants.old copies.old scratch.old tables.old)).numbers }
    ensures tables_after { store_of constants.new copies.new scratch.new tables.new ≡ (ran_over state.old list.now numbers.old (store_of constants.old copies.old scratch.old tables.old)).store }
{
    answer_number(&capi::list::kinchoyu_calls(
        state, list, numbers, constants, copies, scratch, tables,
    ))
}

// Reads a listing, plans, opens, gives every section and finishes; hands back the plan. 20, then 10 for a
// plan that is too short, then the circuit's own numbers. A refusal writes no column, and leaves a plan of
// zeros, where there is room.
#[unsafe(no_mangle)]
pub extern "C" fn kinchoyu_run(
    listing: &[u64],
    plan: &mut [u64],
    constants: &mut [u64],
    copies: &mut [u64],
    scratch: &mut [u64],
    tables: &mut [u64],
) -> u64
    ensures value { result ≡ run_call listing.now plan.old (store_of constants.old copies.old scratch.old tables.old) }
    ensures plan_after { plan.new ≡ run_plan listing.now plan.old (store_of constants.old copies.old scratch.old tables.old) }
    ensures tables_after { store_of constants.new copies.new scratch.new tables.new ≡ run_left listing.now plan.old (store_of constants.old copies.old scratch.old tables.old) }
{
    answer_number(&capi::listed::kinchoyu_run(listing, plan, constants, copies, scratch, tables))
}

// Reads a listing, writes the padded one to the front of `out` and its number of words to `count`. 20,
// then the circuit's own numbers, then 10 for `out` or `count`. A refusal leaves `out` as it was and a
// count of 0, where there is room.
#[unsafe(no_mangle)]
pub extern "C" fn kinchoyu_pad(listing: &[u64], out: &mut [u64], count: &mut [u64]) -> u64
    ensures value { result ≡ pad_call listing.now out.old count.old }
    ensures out_after { out.new ≡ pad_out listing.now out.old count.old }
    ensures count_after { count.new ≡ pad_count listing.now out.old count.old }
{
    answer_number(&capi::padded::kinchoyu_pad(listing, out, count))
}
