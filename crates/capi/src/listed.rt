// A whole listing in one call.
ghost use Rattle.std.specs.Prelude.{◌≡◌};
ghost use Rattle.columns.specs.Intake.{store_of};
ghost use Rattle.refusal.specs.Refusal.{answer_number};
ghost use Rattle.capi.specs.Listed.{run_call, run_left, run_plan};

use encoding::encoding::{PLAN_WORDS, encode_plan};
use listing::cursor::sections_of;
use refusal::{Refusal, outcome};
use stage::listed::run_listing;
use tree::plan::Plan;

// Reads a listing, plans, opens, gives every section and finishes; hands back the plan. 20, then 10 for a
// plan that is too short, then the circuit's own numbers. A refusal writes no column, and leaves a plan of
// zeros, where there is room.
pub fn kinchoyu_run(
    listing: &[u64],
    plan: &mut [u64],
    constants: &mut [u64],
    copies: &mut [u64],
    scratch: &mut [u64],
    tables: &mut [u64],
) -> Result<(), Refusal>
    ensures value { answer_number result ≡ run_call listing.now plan.old (store_of constants.old copies.old scratch.old tables.old) }
    ensures plan_after { plan.new ≡ run_plan listing.now plan.old (store_of constants.old copies.old scratch.old tables.old) }
    ensures tables_after { store_of constants.new copies.new scratch.new tables.new ≡ run_left listing.now plan.old (store_of constants.old copies.old scratch.old tables.old) }
{
    if plan.len() < PLAN_WORDS {
        sections_of(listing)?; // 20 for words that are no listing goes before 10
        return Err(Refusal::ShortBuffer);
    }
    let answer = run_listing(listing, constants, copies, scratch, tables);
    encode_plan(answer.unwrap_or(Plan::zero()), plan);
    outcome(&answer)
}
