// A list of calls in one call.
ghost use Rattle.std.specs.Prelude.{◌≡◌};
ghost use Rattle.refusal.specs.Refusal.{answer_number};
ghost use Rattle.calls.specs.Encoded.{calls_of, ran_by};
ghost use Rattle.claim.specs.Keeping.{keeping};
ghost use Rattle.columns.specs.Given.{marked_of, marked_with};
ghost use Rattle.columns.specs.Intake.{state_in, store_of, with_state};
ghost use Rattle.tree.specs.Plan.{zero_plan};
ghost use Rattle.capi.specs.Calls.{list_after, ran_over};

use crate::intake::{give_marked_back, parts_in};
use calls::list::run_calls;
use columns::take::Counts;
use encoding::encoding::STATE_WORDS;
use encoding::held::{held_at, marks_of};
use refusal::Refusal;
use selector::Marks;
use tree::plan::Plan;

// A list of calls where the words hold no state: they are a made-up one, of the plan of zeros. It is not inlined, so that other
// calls make no plan of zeros.
#[inline(never)]
fn run_zero(
    counts: &mut Counts,
    used: &mut Marks,
    list: &[u64],
    numbers: &mut [u64],
    constants: &mut [u64],
    copies: &mut [u64],
    scratch: &mut [u64],
    tables: &mut [u64],
) -> Result<(), Refusal>
    ensures value { marked_with (answer_number result) counts.new used.new ≡ marked_of (ran_by (calls_of list.now) (keeping (with_state zero_plan (state_in counts.old used.old)) constants.old copies.old scratch.old tables.old) numbers.old).answer }
    ensures tables_after { store_of constants.new copies.new scratch.new tables.new ≡ (ran_by (calls_of list.now) (keeping (with_state zero_plan (state_in counts.old used.old)) constants.old copies.old scratch.old tables.old) numbers.old).store }
    ensures numbers_after { numbers.new ≡ (ran_by (calls_of list.now) (keeping (with_state zero_plan (state_in counts.old used.old)) constants.old copies.old scratch.old tables.old) numbers.old).numbers }
{
    let zero = Plan::zero();
    run_calls(
        zero.parts(),
        counts,
        used,
        list,
        numbers,
        constants,
        copies,
        scratch,
        tables,
    )
}

// Makes the calls of a list in order, each with the state that the one before it left. For each call
// the list has its kind (1 rows, 2 S words, 3 cells, 4 tables, 5 finishing), the number of its words,
// and the words; those of a finishing are not read. Each call's number goes to `numbers`. 20 for a list that is
// cut short or has another kind, then 10 for the numbers; both write nothing. Else 0, whatever the calls' numbers are.
pub fn kinchoyu_calls(
    state: &mut [u64],
    list: &[u64],
    numbers: &mut [u64],
    constants: &mut [u64],
    copies: &mut [u64],
    scratch: &mut [u64],
    tables: &mut [u64],
) -> Result<(), Refusal>
    ensures value { answer_number result ≡ (ran_over state.old list.now numbers.old (store_of constants.old copies.old scratch.old tables.old)).answer.number }
    ensures state_after { state.new ≡ list_after (ran_over state.old list.now numbers.old (store_of constants.old copies.old scratch.old tables.old)).answer state.old }
    ensures numbers_after { numbers.new ≡ (ran_over state.old list.now numbers.old (store_of constants.old copies.old scratch.old tables.old)).numbers }
    ensures tables_after { store_of constants.new copies.new scratch.new tables.new ≡ (ran_over state.old list.now numbers.old (store_of constants.old copies.old scratch.old tables.old)).store }
{
    let held = held_at(state);
    let mut counts = held.counts;
    let mut used = marks_of(state);
    let answer = match held.outline {
        Some(outline) => run_calls(
            parts_in(outline, state),
            &mut counts,
            &mut used,
            list,
            numbers,
            constants,
            copies,
            scratch,
            tables,
        ),
        None => run_zero(
            &mut counts,
            &mut used,
            list,
            numbers,
            constants,
            copies,
            scratch,
            tables,
        ),
    };
    if state.len() != STATE_WORDS {
        return answer;
    }
    give_marked_back(answer, counts, used, state)
}
