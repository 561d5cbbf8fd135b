// 01's test for a made-up plan (19), as far as its nodes, D, K and F go.
ghost use Rattle.std.specs.Prelude.{◌≡◌, true, ℕ, ◌+◌, ◌*◌, ◌≤◌, ◌<◌, length, get_or};
ghost use Rattle.base.specs.Pick.{pick};
ghost use Rattle.base.specs.Limits.{most_gates};
ghost use Rattle.selector.specs.Gates.{gate_words};
ghost use Rattle.selector.specs.Inner.{Sound};
ghost use Rattle.selector.specs.Nodes.{tree_at, most_nodes, node_slots};
ghost use Rattle.selector.specs.MadeUp.{linked_at, linked_from, wanted, as_wanted, nodes_fit, numbers_are};
ghost use Rattle.selector.specs.Walk.{meet, Visited, Links};
ghost use Rattle.tree.specs.Walks.{walk, Most};

use crate::gates::{constants_of, degree_at_depth, factor_of};
use crate::plan::Told;
use selector::{GATE_WORDS, MOST_GATES, MOST_LEVELS, MOST_NODES, Marks, NODE_WORDS};

// What a walk has met so far: a mark for each gate that was met, the greatest degree at depth and the greatest constants plus depth.
#[derive(Clone, Copy)]
pub struct Met {
    pub marks: Marks,
    pub degree: u64,
    pub constants: u64,
}

// A leaf is met: a gate that is unlisted or met before ends the walk.
fn meet(gates: &[u64], met: &mut Met, many: usize, gate: u64, level: u64, extra: u64) -> bool
    requires sound { Sound gates.now many extra }
    requires level_bound { level ≤ 100 }
    ensures result_after { walk met.new result ≡ meet extra gates.now many gate level (walk met.old true) }
    ensures most { Most met.old met.new }
{
    if many as u64 <= gate {
        return false;
    }
    let g = gate as usize;
    if met.marks[g] != 0 {
        return false;
    }
    met.marks[g] = 1;
    met.degree = met.degree.max(degree_at_depth(gates, gate, level));
    met.constants = met.constants.max(constants_of(gates, gate, extra) + level);
    true
}

// The tree at a node is walked, at most `levels` deep; whether nothing was wrong. A gate met twice ends the walk, so that it is linear in the gates however the nodes point at one another.
fn visit<'a>(
    gates: &'a [u64],
    nodes: &'a [u64],
    met: &mut Met,
    many: usize,
    count: usize,
    at: usize,
    level: u64,
    levels: u64,
    extra: u64,
) -> bool
    requires sound { Sound gates.now many extra }
    requires links { Links nodes.now count }
    requires at_lt_count { (at < count) × (count ≤ most_nodes) × (level + levels ≤ 100) × (node_slots ≤ length nodes.now) }
    ensures visited { Visited extra gates.now many (tree_at levels nodes.now at) level (walk met.old true) (walk met.new result) }
    ensures most { Most met.old met.new }
{
    if levels == 0 {
        return false;
    }
    let left = nodes[at * NODE_WORDS] as usize;
    if left == 0 {
        let gate = nodes[at * NODE_WORDS + 2];
        return meet(gates, met, many, gate, level, extra);
    }
    let right = nodes[at * NODE_WORDS + 1] as usize;
    let below = level + 1;
    let rest = levels - 1;
    visit(gates, nodes, met, many, count, left, below, rest, extra)
        && visit(gates, nodes, met, many, count, right, below, rest, extra)
}

// Whether a node is a leaf, without child words, or has both children behind it and within the nodes.
#[tactic(auto, using(crate::proofs::TestLaws::tests), unfolding(selector::specs::MadeUp::linked_at))]
fn linked_at(nodes: &[u64], count: usize, at: usize) -> bool
    requires { (at < count) × (count ≤ most_nodes) × (node_slots ≤ length nodes.now) }
    ensures { result ≡ linked_at nodes.now count at }
{
    let left = nodes[at * NODE_WORDS] as usize;
    let right = nodes[at * NODE_WORDS + 1] as usize;
    if left == 0 {
        right == 0
    } else {
        at < left && left < count && at < right && right < count
    }
}

#[tactic(auto, using(crate::proofs::MadeUpLaws::links_left))]
fn linked(nodes: &[u64], count: usize) -> bool
    requires { (count ≤ most_nodes) × (node_slots ≤ length nodes.now) }
    ensures { result ≡ linked_from count nodes.now count 0 }
{
    for i in 0..count {
        if !linked_at(nodes, count, i) {
            return false;
        }
    }
    true
}

// Whether a listed gate has to stand at a leaf.
#[tactic(auto, using(crate::proofs::TestLaws::tests), unfolding(selector::specs::MadeUp::wanted))]
pub(crate) fn is_wanted(gates: &[u64], many: usize, gate: usize) -> bool
    requires { gate * gate_words < length gates.now }
    ensures { pick result 1 0 ≡ wanted gates.now many gate }
{
    many == 1 || gates[gate * GATE_WORDS] != 2
}

#[tactic(auto, using(crate::proofs::MadeUpLaws::wanted_left))]
fn as_wanted<'a>(gates: &'a [u64], marks: &'a Marks, many: usize) -> bool
    requires { (many * gate_words ≤ length gates.now) × (many ≤ most_gates) }
    ensures { result ≡ as_wanted many gates.now many (λ (g : ℕ). get_or marks.now g 0) 0 }
{
    for g in 0..many {
        if marks[g] != u64::from(is_wanted(gates, many, g)) {
            return false;
        }
    }
    true
}

// Whether D, K and F are those that the walk found.
#[tactic(auto, using(crate::proofs::TestLaws::tests), unfolding(selector::specs::MadeUp::numbers_are))]
fn numbers_fit(degree: u64, constants: u64, told: Told) -> bool
    requires { degree ≤ 200 }
    ensures { result ≡ numbers_are degree constants told.degree told.constants told.factor }
{
    told.degree == degree && told.constants == constants && told.factor == factor_of(degree)
}

// Whether the nodes are a tree of the placed gates, and D, K and F are its own.
pub(crate) fn nodes_fit<'a>(
    gates: &'a [u64],
    nodes: &'a [u64],
    many: usize,
    count: usize,
    extra: u64,
    told: Told,
) -> bool
    requires sound { Sound gates.now many extra }
    requires node_slots_in_bounds { node_slots ≤ length nodes.now }
    ensures { result ≡ nodes_fit extra gates.now many nodes.now count told.degree told.constants told.factor }
{
    if count == 0 || MOST_NODES < count || !linked(nodes, count) {
        return false;
    }
    let mut met = Met {
        marks: [0; MOST_GATES],
        degree: 0,
        constants: 0,
    };
    visit(
        gates,
        nodes,
        &mut met,
        many,
        count,
        0,
        0,
        MOST_LEVELS,
        extra,
    ) && as_wanted(gates, &met.marks, many)
        && numbers_fit(met.degree, met.constants, told)
}
