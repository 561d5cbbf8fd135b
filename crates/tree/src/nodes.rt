// The plan's node words: the tree in preorder, with D and K.
ghost use Rattle.std.specs.Prelude.{◌≡◌, ℕ, ◌+◌, ◌≤◌, ◌<◌, IfSome};
ghost use Rattle.selector.specs.Inner.{depth, Holds, Sound};
ghost use Rattle.selector.specs.Tree.{Tree};
ghost use Rattle.selector.specs.Search.{plan_tree};
ghost use Rattle.selector.specs.Nodes.{put, most_nodes};
ghost use Rattle.tree.specs.Shapes.{shape_of, shape_or_zeros};
ghost use Rattle.tree.specs.Layout.{Room, Done};

use crate::gates::{constants_of, degree_at_depth, factor_of};
use crate::search::compute_placement;
use selector::{MOST_LEVELS, NODE_SLOTS, NODE_WORDS, Nodes};

// All that the search says of a tree is that it is at most `MOST_LEVELS` deep, which is one level more.
const LAID_LEVELS: u64 = MOST_LEVELS + 1;

// Writes a node's three words.
pub(crate) fn put_node(nodes: &mut Nodes, at: usize, left: u64, right: u64, gate: u64)
    requires { at < most_nodes }
    ensures { nodes.new ≡ put nodes.old at left right gate }
{
    nodes[at * NODE_WORDS] = left;
    nodes[at * NODE_WORDS + 1] = right;
    nodes[at * NODE_WORDS + 2] = gate;
}

// What is laid out so far: the next node, the greatest degree at depth and the greatest constants plus depth.
#[derive(Clone, Copy)]
pub struct Stats {
    pub next: usize,
    pub degree: u64,
    pub constants: u64,
}

// A tree's node words, and its D, K and F.
#[derive(Clone, Copy)]
pub struct Shape {
    pub nodes: Nodes,
    pub count: u64,
    pub degree: u64,
    pub constants: u64,
    pub factor: u64,
}

// The tree at node `at` of `old` goes to `new` in preorder from `stats.next` on, and its stats with it.
fn lay<'a>(
    gates: &'a [u64],
    old: &'a Nodes,
    new: &mut Nodes,
    many: usize,
    at: usize,
    level: u64,
    levels: u64,
    extra: u64,
    stats: Stats,
) -> Stats
    requires sound { Sound gates.now many extra }
    requires room { Room many old.now at levels stats.next }
    requires levels_bound { level + levels ≤ 100 }
    ensures { (t : Tree) → Holds old.now most_nodes at t → depth t < levels → Done extra gates.now level t stats new.old new.new result }
{
    if levels == 0 {
        return stats;
    }
    let next = stats.next;
    let left = old[at * NODE_WORDS] as usize;
    if left == 0 {
        let gate = old[at * NODE_WORDS + 2];
        put_node(new, next, 0, 0, gate);
        let degree = stats.degree.max(degree_at_depth(gates, gate, level));
        let constants = stats
            .constants
            .max(constants_of(gates, gate, extra) + level);
        return Stats {
            next: next + 1,
            degree,
            constants,
        };
    }
    let inner = Stats {
        next: next + 1,
        ..stats
    };
    let below = level + 1;
    let rest = levels - 1;
    let done = lay(gates, old, new, many, left, below, rest, extra, inner);
    let after = done.next;
    let right = old[at * NODE_WORDS + 1] as usize;
    put_node(new, next, (next + 1) as u64, after as u64, 0);
    lay(gates, old, new, many, right, below, rest, extra, done)
}

// The shape of a list of gates, if they have a tree.
pub(crate) fn shape_of(gates: &[u64], many: usize, extra: u64) -> Option<Shape>
    requires { Sound gates.now many extra }
    ensures shape { shape_or_zeros result ≡ shape_of extra gates.now (plan_tree extra gates.now many) }
    ensures some { IfSome result (λ shape. 0 < shape.count) }
{
    let mut old = [0; NODE_SLOTS];
    compute_placement(gates, &mut old, many, extra)?;
    let mut new = [0; NODE_SLOTS];
    let none = Stats {
        next: 0,
        degree: 0,
        constants: 0,
    };
    let done = lay(gates, &old, &mut new, many, 0, 0, LAID_LEVELS, extra, none);
    let factor = factor_of(done.degree);
    Some(Shape {
        nodes: new,
        count: done.next as u64,
        degree: done.degree,
        constants: done.constants,
        factor,
    })
}
