// The search for a tree, over nodes in a flat array, three words a node: left (0: a leaf), right, gate.
ghost use Rattle.std.specs.Prelude.{◌≡◌, ℕ, ◌+◌, ◌*◌, ◌≤◌, ◌<◌, IfSome, length, drop};
ghost use Rattle.selector.specs.Nodes.{most_nodes, node_slots, most_levels};
ghost use Rattle.base.specs.Limits.{most_gates};
ghost use Rattle.selector.specs.Inner.{Listed, Distinct, Sound};
ghost use Rattle.selector.specs.Gates.{gate_words};
ghost use Rattle.selector.specs.Tree.{grown};
ghost use Rattle.selector.specs.Search.{may_stand, first_bound, search_tree, plan_tree};
ghost use Rattle.selector.specs.Flat.{split_flat, offer_node, offer_fork, Fine, Stands};
ghost use Rattle.tree.specs.Offers.{count_of, fits_offer};

use crate::gates::{constants_of, factor_of};
use crate::nodes::put_node;
use crate::order::arrange;
use selector::{GATE_WORDS, MOST_GATES, MOST_LEVELS, Marks, NODE_WORDS, Nodes};

// "Targets: t, 2t, 4t, 8t".
const TARGETS: u64 = 4;

// "for i = 0..L+1": the levels that i runs past L.
const EXTRA_LEVELS: u64 = 1;

// A gate on offer, for a target and a bound; the lookup gate has `extra` constants.
#[derive(Clone, Copy)]
pub struct Offer {
    pub gate: u64,
    pub target: u64,
    pub bound: u64,
    pub extra: u64,
}

// Whether a gate may stand at a depth: degree within the target, constants plus depth within the bound.
#[tactic(auto, using(crate::proofs::TestLaws::tests), unfolding(selector::specs::Search::may_stand, selector::specs::Gates::degree_at))]
fn may_stand(gates: &[u64], gate: u64, depth: u64, offer: Offer) -> bool
    requires { gate * gate_words + 2 < length gates.now }
    ensures { result ≡ fits_offer gates.now offer gate depth }
{
    let at = gate as usize * GATE_WORDS;
    let fits = if gates[at] == 3 {
        depth.max(2) <= offer.target
    } else {
        depth <= offer.target && gates[at + 1] <= offer.target - depth
    };
    fits && depth <= offer.bound && constants_of(gates, gate, offer.extra) <= offer.bound - depth
}

// The leaf at `at` becomes a fork of two new nodes: its gate left, the new gate right.
fn split(nodes: &mut Nodes, count: usize, at: usize, gate: u64)
    requires { (count + 2 ≤ most_nodes) × (at < count) }
    ensures { nodes.new ≡ split_flat nodes.old count at gate }
{
    let old = nodes[at * NODE_WORDS + 2];
    put_node(nodes, count, 0, 0, old);
    let next = count + 1;
    put_node(nodes, next, 0, 0, gate);
    put_node(nodes, at, count as u64, next as u64, 0);
}

// A gate is offered to a node: the number of nodes after it, the same where it is refused.
#[cycle(try_add_gate_try_add_to_sides)]
fn try_add_gate(
    gates: &[u64],
    nodes: &mut Nodes,
    count: usize,
    at: usize,
    depth: u64,
    levels: u64,
    offer: Offer,
) -> usize
    requires fine { Fine gates.now nodes.old count at offer.gate }
    requires levels_bound { depth + levels < 1000 }
    ensures value { result ≡ (offer_node levels (fits_offer gates.now offer) offer.gate depth at nodes.old count).count }
    ensures nodes_after { nodes.new ≡ (offer_node levels (fits_offer gates.now offer) offer.gate depth at nodes.old count).nodes }
{
    if levels == 0 {
        return count;
    }
    if nodes[at * NODE_WORDS] == 0 {
        if may_stand(gates, nodes[at * NODE_WORDS + 2], depth + 1, offer)
            && may_stand(gates, offer.gate, depth + 1, offer)
        {
            split(nodes, count, at, offer.gate);
            return count + 2;
        }
        return count;
    }
    try_add_to_sides(gates, nodes, count, at, depth + 1, levels - 1, offer)
}

// And to the sides of a fork, which stand at `depth`.
#[cycle(try_add_gate_try_add_to_sides)]
fn try_add_to_sides(
    gates: &[u64],
    nodes: &mut Nodes,
    count: usize,
    at: usize,
    depth: u64,
    levels: u64,
    offer: Offer,
) -> usize
    requires fine { Fine gates.now nodes.old count at offer.gate }
    requires levels_bound { depth + levels < 1000 }
    ensures value { result ≡ (offer_fork levels (fits_offer gates.now offer) offer.gate depth at nodes.old count).count }
    ensures nodes_after { nodes.new ≡ (offer_fork levels (fits_offer gates.now offer) offer.gate depth at nodes.old count).nodes }
{
    let left = nodes[at * NODE_WORDS] as usize;
    let taken = try_add_gate(gates, nodes, count, left, depth, levels, offer);
    if taken != count {
        return taken;
    }
    let right = nodes[at * NODE_WORDS + 1] as usize;
    try_add_gate(gates, nodes, count, right, depth, levels, offer)
}

// The tree of the gates order[base..], offered in order: how many nodes it has, or none where a gate is refused.
fn place_all<'a>(
    gates: &'a [u64],
    order: &'a Marks,
    nodes: &mut Nodes,
    many: usize,
    base: usize,
    extra: u64,
    target: u64,
    bound: u64,
) -> Option<usize>
    requires gate_words_in_bounds { (many * gate_words ≤ length gates.now) × (bound ≤ most_levels) × (length order.now ≡ most_gates) × (length nodes.old ≡ node_slots) }
    requires listed { Listed many (drop base order.now) }
    requires distinct { Distinct (drop base order.now) }
    ensures stands { Stands many (grown (may_stand extra gates.now target bound) (drop base order.now)) nodes.new (count_of result) }
    ensures some { IfSome result (λ n. 0 < n) }
    ensures nodes_len { length nodes.new ≡ node_slots }
{
    if MOST_GATES <= base {
        return None;
    }
    let first = Offer {
        gate: order[base],
        target,
        bound,
        extra,
    };
    if !may_stand(gates, first.gate, 0, first) {
        return None;
    }
    put_node(nodes, 0, 0, 0, first.gate);
    let mut count = 1;
    for i in base + 1..MOST_GATES {
        let offer = Offer {
            gate: order[i],
            ..first
        };
        let taken = try_add_gate(gates, nodes, count, 0, 0, MOST_LEVELS, offer);
        if taken == count {
            return None;
        }
        count = taken;
    }
    Some(count)
}

// The first tree of the bounds from `bound` on, `left` of them.
fn try_find_placement_for_degree<'a>(
    gates: &'a [u64],
    order: &'a Marks,
    nodes: &mut Nodes,
    many: usize,
    base: usize,
    extra: u64,
    target: u64,
    bound: u64,
    left: u64,
) -> Option<usize>
    requires gate_words_in_bounds { (many * gate_words ≤ length gates.now) × (bound + left ≤ most_levels + 1) × (length order.now ≡ most_gates) × (length nodes.old ≡ node_slots) }
    requires listed { Listed many (drop base order.now) }
    requires distinct { Distinct (drop base order.now) }
    ensures stands { Stands many (first_bound (λ (b : ℕ). grown (may_stand extra gates.now target b) (drop base order.now)) left bound) nodes.new (count_of result) }
    ensures some { IfSome result (λ n. 0 < n) }
    ensures nodes_len { length nodes.new ≡ node_slots }
{
    for b in bound..bound + left {
        if let Some(count) = place_all(gates, order, nodes, many, base, extra, target, b) {
            return Some(count);
        }
    }
    None
}

// The search: the targets from the factor of M on, and for each the bounds G to G + L + 1.
fn search(gates: &[u64], nodes: &mut Nodes, many: usize, extra: u64) -> Option<usize>
    requires sound { Sound gates.now many extra }
    requires nodes_len { length nodes.old ≡ node_slots }
    ensures stands { Stands many (search_tree extra gates.now many) nodes.new (count_of result) }
    ensures some { IfSome result (λ n. 0 < n) }
    ensures nodes_len_2 { length nodes.new ≡ node_slots }
{
    let mut order = [0; MOST_GATES];
    let ranged = arrange(gates, many, extra, &mut order);
    let base = ranged.base;
    let levels = base::power_above((MOST_GATES - base) as u64);
    let left = levels.exponent + (EXTRA_LEVELS + 1);
    let mut target = factor_of(ranged.degree);
    for _ in 0..TARGETS {
        if let Some(count) = try_find_placement_for_degree(
            gates,
            &order,
            nodes,
            many,
            base,
            extra,
            target,
            ranged.constants,
            left,
        ) {
            return Some(count);
        }
        target *= 2;
    }
    None
}

// The tree of a list of gates: a lone leaf for one gate, else what the search finds. The number of its nodes, if there is one.
pub(crate) fn compute_placement(
    gates: &[u64],
    nodes: &mut Nodes,
    many: usize,
    extra: u64,
) -> Option<usize>
    requires sound { Sound gates.now many extra }
    requires nodes_len { length nodes.old ≡ node_slots }
    ensures stands { Stands many (plan_tree extra gates.now many) nodes.new (count_of result) }
    ensures some { IfSome result (λ n. 0 < n) }
    ensures nodes_len_2 { length nodes.new ≡ node_slots }
{
    if many == 1 {
        put_node(nodes, 0, 0, 0, 0);
        return Some(1);
    }
    search(gates, nodes, many, extra)
}
