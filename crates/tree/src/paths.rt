// The path of a gate in a plan's nodes, and those of all gates.
ghost use Rattle.std.specs.Prelude.{◌≡◌, ℕ, ◌+◌, ◌^◌, ◌≤◌, ◌<◌, IfSome, length};
ghost use Rattle.std.proofs.Math.Option.{some};
ghost use Rattle.selector.specs.Tree.{Tree};
ghost use Rattle.selector.specs.Paths.{path_to};
ghost use Rattle.selector.specs.Nodes.{tree_at, most_nodes, node_slots, most_levels};
ghost use Rattle.selector.specs.Walk.{Links};
ghost use Rattle.tree.specs.Placements.{spelled, path_words, placed};

use selector::{MOST_GATES, Marks, NODE_WORDS};

// The steps from the root to a gate: bit i of `bits`, from the least, is step i.
#[derive(Clone, Copy)]
pub struct Path {
    pub bits: u64,
    pub length: u64,
}

// The path from a node to a gate, at most `levels` deep.
pub(crate) fn output_placement(
    nodes: &[u64],
    count: usize,
    at: usize,
    gate: u64,
    levels: u64,
) -> Option<Path>
    requires links { Links nodes.now count }
    requires at_lt_count { (at < count) × (count ≤ most_nodes) × (levels ≤ most_levels) × (node_slots ≤ length nodes.now) }
    ensures value { (t : Tree) → tree_at levels nodes.now at ≡ some t → result ≡ spelled (path_to gate t) }
    ensures bits_bound { IfSome result (λ path. (path.bits < 2 ^ levels) × (path.length ≤ levels)) }
{
    if levels == 0 {
        return None;
    }
    let left = nodes[at * NODE_WORDS] as usize;
    if left == 0 {
        return if gate == nodes[at * NODE_WORDS + 2] {
            Some(Path { bits: 0, length: 0 })
        } else {
            None
        };
    }
    if let Some(path) = output_placement(nodes, count, left, gate, levels - 1) {
        return Some(Path {
            bits: path.bits * 2 + 1,
            length: path.length + 1,
        });
    }
    let right = nodes[at * NODE_WORDS + 1] as usize;
    let path = output_placement(nodes, count, right, gate, levels - 1)?;
    Some(Path {
        bits: path.bits * 2,
        length: path.length + 1,
    })
}

// The path of each gate at a leaf below a node, at most `levels` deep, is written. `path` and `depth` are the bits and the length of the node's own path, and
// `weight`, 2 to the depth, is what a step to the left adds. The right side comes first, so that of two leaves of one gate the left one's path stays, as `output_placement` finds it.
pub(crate) fn all_placements(
    nodes: &[u64],
    count: usize,
    at: usize,
    path: u64,
    weight: u64,
    depth: u64,
    levels: u64,
    bits: &mut Marks,
    lengths: &mut Marks,
)
    requires links { Links nodes.now count }
    requires at_lt_count { (at < count) × (count ≤ most_nodes) × (path < weight) × (weight ≡ 2 ^ depth) × (depth + levels ≤ most_levels) × (node_slots ≤ length nodes.now) }
    ensures { (t : Tree) → tree_at levels nodes.now at ≡ some t → path_words bits.new lengths.new ≡ placed t path weight depth (path_words bits.old lengths.old) }
{
    if levels == 0 {
        return;
    }
    let left = nodes[at * NODE_WORDS] as usize;
    if left == 0 {
        let gate = nodes[at * NODE_WORDS + 2] as usize;
        // a tree that passed the test for a made-up plan has no other gate
        if gate < MOST_GATES {
            bits[gate] = path;
            lengths[gate] = depth;
        }
        return;
    }
    let right = nodes[at * NODE_WORDS + 1] as usize;
    all_placements(
        nodes,
        count,
        right,
        path,
        weight * 2,
        depth + 1,
        levels - 1,
        bits,
        lengths,
    );
    all_placements(
        nodes,
        count,
        left,
        path + weight,
        weight * 2,
        depth + 1,
        levels - 1,
        bits,
        lengths,
    );
}
