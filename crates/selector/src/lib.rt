// The mathematics of 01, 'Gates and tree', stands in specs/. The crates above it share its sizes.
#![tactic(auto)]

// "Gates: 1..128.", in a list.
pub const MOST_GATES: usize = 128;

// "A gate is three words: kind, degree, constants."
pub const GATE_WORDS: usize = 3;

// The words of as many gates as a list may have.
pub const GATE_SLOTS: usize = MOST_GATES * GATE_WORDS;

// A plan's gate words.
pub type GateSlots = [u64; GATE_SLOTS];

// A word for each gate.
pub type Marks = [u64; MOST_GATES];

// A node's words: left, right, gate.
pub const NODE_WORDS: usize = 3;

// As many nodes as a tree with a leaf for each gate has.
pub const MOST_NODES: usize = MOST_GATES * 2 - 1;

// The words of as many nodes.
pub const NODE_SLOTS: usize = MOST_NODES * NODE_WORDS;

// A plan's node words.
pub type Nodes = [u64; NODE_SLOTS];

// "a leaf below depth 31": a tree has at most this many levels.
pub const MOST_LEVELS: u64 = 32;
