// Plans and states as words, in the order of their fields.
ghost use Rattle.std.specs.Prelude.{◌≡◌};
ghost use Rattle.writer.specs.Hand.{handed};
ghost use Rattle.encoding.specs.Encoding.{count_words, lookup_fits, marks_at, plan_words, progress_in, progressed};

use columns::take::Counts;
use parameters::parameters::PARAMETER_WORDS;
use selector::{GATE_SLOTS, MOST_GATES, Marks, NODE_SLOTS};
use tree::plan::Plan;
use writer::put::put_words;

// Where the parts of a plan's words stand: parameters and lookup mode first, then gates, their count, nodes, the rest.
pub const GATES_FROM: usize = PARAMETER_WORDS;

pub const COUNT_AT: usize = GATES_FROM + GATE_SLOTS;

pub const NODES_FROM: usize = COUNT_AT + 1;

pub const TAIL_FROM: usize = NODES_FROM + NODE_SLOTS;

// The number of nodes, D, K and F.
const TAIL_LENGTH: usize = 4;

pub const PLAN_WORDS: usize = TAIL_FROM + TAIL_LENGTH;

// Where the parts of a state's words stand: the plan first, then the counts, the marks, the phase.
pub const COUNTS_FROM: usize = PLAN_WORDS;

// Rows, S words, cells, tables and table rows.
const COUNTS_LENGTH: usize = 5;

pub const USED_FROM: usize = COUNTS_FROM + COUNTS_LENGTH;

pub const PHASE_AT: usize = USED_FROM + MOST_GATES;

pub const STATE_WORDS: usize = PHASE_AT + 1;

// Whether some lookup mode has this number, width and flag.
#[tactic(auto, unfolding(crate::specs::Encoding::lookup_fits))]
pub(crate) fn lookup_fits(mode: u64, width: u64, flag: u64) -> bool
    ensures { result ≡ lookup_fits mode width flag }
{
    mode <= 4 && flag <= 1 && (mode != 0 || width == 0 && flag == 0)
}

// The counts as words: rows, S words, cells, tables and table rows.
fn count_words(counts: Counts) -> [u64; COUNTS_LENGTH]
    ensures { result ≡ count_words counts }
{
    [
        counts.rows,
        counts.s_words,
        counts.cells,
        counts.tables,
        counts.table_rows,
    ]
}

// The words of a plan go to the front of a slice; one that is too short keeps all its words.
pub fn encode_plan(plan: Plan, words: &mut [u64])
    ensures { words.new ≡ handed (plan_words plan) words.old }
{
    if words.len() < PLAN_WORDS {
        return;
    }
    let lookup = plan.lookup;
    let head = [
        plan.trace,
        plan.copy,
        plan.allowed,
        plan.specialised,
        plan.variables,
        lookup.mode(),
        lookup.lookup_width(),
        u64::from(lookup.share_table_id()),
    ];
    put_words(&head, 0, words);
    let gates = plan.gates;
    put_words(&gates, GATES_FROM, words);
    words[COUNT_AT] = plan.gate_count;
    let nodes = plan.nodes;
    put_words(&nodes, NODES_FROM, words);
    let tail = [plan.node_count, plan.degree, plan.constants, plan.factor];
    put_words(&tail, TAIL_FROM, words);
}

// What a call changes of a state goes behind the words of its plan, which stay; a slice that is too
// short keeps all its words.
pub fn encode_progress(counts: Counts, used: Marks, words: &mut [u64])
    ensures { words.new ≡ progressed (progress_in counts used) words.old }
{
    if STATE_WORDS <= words.len() {
        put_words(&count_words(counts), COUNTS_FROM, words);
        put_words(&used, USED_FROM, words);
        words[PHASE_AT] = counts.phase;
    }
}

// The same where the marks stay too.
pub fn encode_counts(counts: Counts, words: &mut [u64])
    ensures { words.new ≡ progressed (progress_in counts (marks_at words.old)) words.old }
{
    if STATE_WORDS <= words.len() {
        let tally = count_words(counts);
        put_words(&tally, COUNTS_FROM, words);
        words[PHASE_AT] = counts.phase;
    }
}
