// What rows need of the gates of a plan, one answer for all of them.
ghost use Rattle.std.specs.Prelude.{◌≡◌, ℕ, ◌*◌, ◌-◌, ◌≤◌, eqb, get_or, false, length, true};
ghost use Rattle.base.specs.Pick.{pick};
ghost use Rattle.base.specs.Limits.{most_gates};
ghost use Rattle.base.specs.Fills.{Filled};
ghost use Rattle.selector.specs.Gates.{gate_words, constants_of};
ghost use Rattle.selector.specs.MadeUp.{wanted};
ghost use Rattle.selector.specs.Markers.{marker_ends};

use crate::gates::constants_of;
use crate::made_up::is_wanted;
use selector::{GATE_WORDS, MOST_GATES, Marks};

// How many gates are listed; of each the bits and the steps of its path, zeros without one, 1 where its rows are turned away (23), and its own number of
// constants. The words of gates that are not listed are 0.
#[derive(Clone, Copy)]
pub struct GateRows {
    pub many: u64,
    pub bits: Marks,
    pub steps: Marks,
    pub barred: Marks,
    pub own: Marks,
}

// Whether no gate of kind 1 has the path of zeros: by the kinds of the gates, and by the bits of their paths.
#[tactic(auto, using(crate::proofs::RowsLaws::ends_at))]
pub(crate) fn blocked_by(gates: &[u64], many: usize, bits: &Marks) -> bool
    requires { (many * gate_words ≤ length gates.now) × (many ≤ most_gates) }
    ensures { result ≡ pick (marker_ends (λ (g : ℕ). eqb (get_or bits.now g 0) 0) gates.now many) false true }
{
    for g in 0..many {
        if gates[g * GATE_WORDS] == 1 && bits[g] == 0 {
            return false;
        }
    }
    true
}

// Which of the listed gates have rows that are turned away, those without a selector where they are blocked; and the constants of each, where the lookup gate has `extra`.
#[tactic(auto, using(base::specs::Fills::filled_none, base::specs::Fills::filled_next))]
pub(crate) fn list_gates(
    gates: &[u64],
    many: usize,
    extra: u64,
    blocked: bool,
    barred: &mut Marks,
    own: &mut Marks,
)
    requires { (many * gate_words ≤ length gates.now) × (many ≤ most_gates) × (length barred.old ≡ most_gates) × (length own.old ≡ most_gates) }
    ensures filled { Filled (λ (g : ℕ). pick blocked (1 - wanted gates.now many g) 0) 0 many barred.old barred.new }
    ensures filled_2 { Filled (constants_of extra gates.now) 0 many own.old own.new }
{
    for g in 0..many {
        barred[g] = u64::from(blocked && !is_wanted(gates, many, g));
        own[g] = constants_of(gates, g as u64, extra);
    }
}
