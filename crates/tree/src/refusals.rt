// The refusals 3 to 7, which are about gate records.
ghost use Rattle.std.specs.Prelude.{◌≡◌, ℕ, ◌-◌, ◌*◌, ◌≤◌, ◌<◌, length};
ghost use Rattle.refusal.specs.Refusal.{answer_number};
ghost use Rattle.selector.specs.Gates.{gate_words, placed_gates, top_constants};
ghost use Rattle.selector.specs.Refusals.{words_fit, record_number, records_number, lists_lookup, some_kind, lookup_number, kinds_number, constants_number, extra_of, gates_number};

use crate::gates::constants_of;
use refusal::Refusal;
use selector::{GATE_WORDS, MOST_GATES};

// Three words each for 1 to 128 gates; else the refusal is 3.
#[tactic(auto, using(crate::proofs::TestLaws::tests), unfolding(selector::specs::Refusals::words_fit))]
pub(crate) fn words_fit(gates: &[u64]) -> bool
    ensures { result ≡ words_fit gates.now }
{
    let many = gates.len() / GATE_WORDS;
    many * GATE_WORDS == gates.len() && 1 <= many && many <= MOST_GATES
}

// The words of one gate: 4.
#[tactic(auto, using(crate::proofs::TestLaws::tests), unfolding(selector::specs::Refusals::record_number))]
fn check_record(kind: u64, degree: u64, constants: u64) -> Result<(), Refusal>
    ensures { answer_number result ≡ record_number kind degree constants }
{
    let fits = match kind {
        0 => 1 <= degree && degree <= 64 && constants <= 16,
        1..=3 => degree == 0 && constants == 0,
        _ => false,
    };
    if fits {
        Ok(())
    } else {
        Err(Refusal::GateRecord)
    }
}

// "4 first bad record".
#[tactic(auto, using(crate::proofs::RefusalsLaws::records_left))]
fn check_records(gates: &[u64], many: usize) -> Result<(), Refusal>
    requires { many * gate_words ≤ length gates.now }
    ensures { answer_number result ≡ records_number many gates.now 0 }
{
    for g in 0..many {
        let at = g * GATE_WORDS;
        check_record(gates[at], gates[at + 1], gates[at + 2])?;
    }
    Ok(())
}

// Whether one of the gates from `from` on has this kind.
#[tactic(auto, using(crate::proofs::RefusalsLaws::kinds_left))]
fn some_kind(gates: &[u64], many: usize, kind: u64, from: usize) -> bool
    requires { (many * gate_words ≤ length gates.now) × (from ≤ many) }
    ensures { result ≡ some_kind kind (many - from) gates.now from }
{
    for g in from..many {
        if gates[g * GATE_WORDS] == kind {
            return true;
        }
    }
    false
}

// The lookup gate stands in the list in modes 1 and 2.
fn lists_lookup(mode: u64) -> bool
    ensures { result ≡ lists_lookup mode }
{
    1 <= mode && mode <= 2
}

// "5 kind 3 elsewhere than first in mode 1 or 2, missing there, or a single gate in a lookup mode".
#[tactic(auto, using(crate::proofs::TestLaws::tests), unfolding(selector::specs::Refusals::lookup_number))]
fn check_lookup(gates: &[u64], many: usize, mode: u64) -> Result<(), Refusal>
    requires { (many * gate_words ≤ length gates.now) × (0 < many) }
    ensures { answer_number result ≡ lookup_number mode gates.now many }
{
    if some_kind(gates, many, 3, 1) {
        return Err(Refusal::LookupGate);
    }
    let lookup_first = gates[0] == 3;
    let fits = if many == 1 {
        mode == 0 && !lookup_first
    } else {
        lists_lookup(mode) == lookup_first
    };
    if fits {
        Ok(())
    } else {
        Err(Refusal::LookupGate)
    }
}

// "6 several gates, none of kind 0 or 3".
#[tactic(auto, using(crate::proofs::TestLaws::tests), unfolding(selector::specs::Refusals::kinds_number))]
fn check_kinds(gates: &[u64], many: usize) -> Result<(), Refusal>
    requires { many * gate_words ≤ length gates.now }
    ensures { answer_number result ≡ kinds_number gates.now many }
{
    if many == 1 || some_kind(gates, many, 0, 0) || some_kind(gates, many, 3, 0) {
        Ok(())
    } else {
        Err(Refusal::NothingEvaluated)
    }
}

// G.
fn top_constants(gates: &[u64], many: usize, extra: u64) -> u64
    requires { many * gate_words ≤ length gates.now }
    ensures { result ≡ top_constants extra gates.now (placed_gates gates.now many) }
{
    let mut constants = 0;
    // counts down, as the gates are arranged
    for g in (0..many).rev() {
        if gates[g * GATE_WORDS] != 2 {
            constants = constants_of(gates, g as u64, extra).max(constants);
        }
    }
    constants
}

// "7 G (or a lone gate's constants) above A".
#[tactic(auto, using(crate::proofs::TestLaws::tests), unfolding(selector::specs::Refusals::constants_number))]
fn check_constants(gates: &[u64], many: usize, extra: u64, allowed: u64) -> Result<(), Refusal>
    requires { (many * gate_words ≤ length gates.now) × (0 < many) }
    ensures { answer_number result ≡ constants_number extra allowed gates.now many }
{
    let most = if many == 1 {
        constants_of(gates, 0, extra)
    } else {
        top_constants(gates, many, extra)
    };
    if most <= allowed {
        Ok(())
    } else {
        Err(Refusal::Constants)
    }
}

// "Mode 2 gives the lookup gate one constant."
pub(crate) fn extra_of(mode: u64) -> u64
    ensures { result ≡ extra_of mode }
{
    u64::from(mode == 2)
}

// The refusals 4 to 7 of the first `many` records, the first that comes.
#[tactic(auto, using(crate::proofs::TestLaws::tests), unfolding(selector::specs::Refusals::gates_number, base::specs::Firsts::or_number))]
pub(crate) fn check_gates(
    gates: &[u64],
    many: usize,
    mode: u64,
    allowed: u64,
) -> Result<(), Refusal>
    requires { (many * gate_words ≤ length gates.now) × (0 < many) }
    ensures { answer_number result ≡ gates_number mode allowed gates.now many }
{
    check_records(gates, many)?;
    check_lookup(gates, many, mode)?;
    check_kinds(gates, many)?;
    check_constants(gates, many, extra_of(mode), allowed)
}
