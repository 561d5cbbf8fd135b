// Planning.
ghost use Rattle.std.specs.Prelude.{◌≡◌, ◌≤◌, length};
ghost use Rattle.selector.specs.Gates.{gate_slots};
ghost use Rattle.refusal.specs.Refusal.{answer_number, answer_or};
ghost use Rattle.tree.specs.Plan.{gate_array, words_number, plan_answer, zero_plan};

use crate::nodes::shape_of;
use crate::plan::Plan;
use crate::refusals::{check_gates, extra_of, words_fit};
use parameters::parameters::Parameters;
use refusal::Refusal;
use selector::{GATE_SLOTS, GATE_WORDS, GateSlots};

// The refusals 1 to 7, the first that comes.
#[tactic(auto, using(crate::proofs::TestLaws::tests), unfolding(crate::specs::Plan::words_number, base::specs::Firsts::or_number))]
fn check_words(parameters: Parameters, gates: &[u64]) -> Result<(), Refusal>
    ensures { answer_number result ≡ words_number parameters gates.now }
{
    parameters.check()?;
    if !words_fit(gates) {
        return Err(Refusal::GateCount);
    }
    let many = gates.len() / GATE_WORDS;
    check_gates(gates, many, parameters.mode, parameters.allowed)
}

// Gate words at the front of a plan's array; the words behind them are 0.
fn in_array(gates: &[u64]) -> GateSlots
    requires { length gates.now ≤ gate_slots }
    ensures { result ≡ gate_array gates.now }
{
    let mut words = [0; GATE_SLOTS];
    words[..gates.len()].copy_from_slice(gates);
    words
}

// The plan for any eight parameter words and any gate words, or the first refusal of 1 to 8.
pub fn plan(parameters: Parameters, gates: &[u64]) -> Result<Plan, Refusal>
    ensures number { answer_number result ≡ (plan_answer parameters gates.now).number }
    ensures plan { answer_or zero_plan result ≡ (plan_answer parameters gates.now).plan }
{
    check_words(parameters, gates)?;
    let many = gates.len() / GATE_WORDS;
    let Some(shape) = shape_of(gates, many, extra_of(parameters.mode)) else {
        return Err(Refusal::NoPlace);
    };
    let kept = in_array(gates);
    let nodes = shape.nodes;
    Ok(Plan {
        trace: parameters.trace,
        copy: parameters.copy,
        allowed: parameters.allowed,
        specialised: parameters.specialised,
        variables: parameters.variables,
        lookup: parameters.lookup(),
        gates: kept,
        gate_count: many as u64,
        nodes,
        node_count: shape.count,
        degree: shape.degree,
        constants: shape.constants,
        factor: shape.factor,
    })
}
