// A gate's words: constants, and the degree at a depth.
ghost use Rattle.std.specs.Prelude.{◌≡◌, ℕ, ◌+◌, ◌*◌, ◌≤◌, ◌<◌, length};
ghost use Rattle.selector.specs.Gates.{gate_words, constants_of, degree_at, degree_of};
ghost use Rattle.selector.specs.Search.{factor_of};

use selector::GATE_WORDS;

// A gate's constants, where the lookup gate has `extra`.
#[tactic(auto, using(crate::proofs::TestLaws::tests), unfolding(selector::specs::Gates::constants_of))]
pub(crate) fn constants_of(gates: &[u64], gate: u64, extra: u64) -> u64
    requires { gate * gate_words + 2 < length gates.now }
    ensures { result ≡ constants_of extra gates.now gate }
{
    let at = gate as usize * GATE_WORDS;
    if gates[at] == 3 { extra } else { gates[at + 2] }
}

// The Rust's degree_at_depth.
#[tactic(auto, using(crate::proofs::TestLaws::tests), unfolding(selector::specs::Gates::degree_at))]
pub(crate) fn degree_at_depth(gates: &[u64], gate: u64, depth: u64) -> u64
    requires { (gate * gate_words + 2 < length gates.now) × (depth < 1000) × (degree_of gates.now gate ≤ 64) }
    ensures { result ≡ degree_at gates.now gate depth }
{
    let at = gate as usize * GATE_WORDS;
    if gates[at] == 3 {
        depth.max(2)
    } else {
        depth + gates[at + 1]
    }
}

// The smallest power of two not below the greater of 1 and degree - 1.
pub(crate) fn factor_of(degree: u64) -> u64
    requires { degree ≤ 1024 }
    ensures { (result ≡ factor_of degree) × (result ≤ 1024) }
{
    base::power_above(degree.max(2) - 1).value
}
