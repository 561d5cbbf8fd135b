// A plan's and a state's words read where they stand: their numbers by value. The words of gates and nodes stay in place, to be
// lent to what is asked of a plan and of a state in parts.
ghost use Rattle.std.specs.Prelude.{◌≡◌, ◌≤◌, length};
ghost use Rattle.encoding.specs.Encoding.{counts_at, plan_length, state_length};
ghost use Rattle.encoding.specs.Holding.{held_at, held_with, marks_read, outline_there, outlined, outlined_at};

use crate::encoding::{
    COUNT_AT, COUNTS_FROM, PHASE_AT, PLAN_WORDS, STATE_WORDS, TAIL_FROM, USED_FROM, lookup_fits,
};
use columns::take::{Counts, NEVER};
use parameters::parameters::parameters_at;
use selector::{MOST_GATES, Marks};
use tree::plan::{Outline, Told};

// What words hold as a state: the outline of its plan, where there are as many words as a state has and some lookup
// mode's among them; the counts, all 0 where there are not as many.
#[derive(Clone, Copy)]
pub struct Held {
    pub outline: Option<Outline>,
    pub counts: Counts,
}

// The outline that the words of a plan hold, or those in front of a state, with some lookup mode's words among them.
fn outline_at(words: &[u64]) -> Option<Outline>
    requires { plan_length ≤ length words.now }
    ensures { outlined result ≡ outline_there words.now }
{
    let parameters = parameters_at(words);
    if !lookup_fits(parameters.mode, parameters.width, parameters.share) {
        return None;
    }
    let lookup = parameters.lookup();
    let told = Told {
        degree: words[TAIL_FROM + 1],
        constants: words[TAIL_FROM + 2],
        factor: words[TAIL_FROM + 3],
    };
    Some(Outline {
        trace: parameters.trace,
        copy: parameters.copy,
        allowed: parameters.allowed,
        specialised: parameters.specialised,
        variables: parameters.variables,
        lookup,
        gate_count: words[COUNT_AT],
        node_count: words[TAIL_FROM],
        told,
    })
}

// The outline that words hold as a plan.
#[tactic(auto, unfolding(crate::specs::Holding::outlined_at))]
pub fn outlined_at(words: &[u64]) -> Option<Outline>
    ensures { outlined result ≡ outlined_at words.now }
{
    if words.len() != PLAN_WORDS {
        return None;
    }
    outline_at(words)
}

// The counts of a state's words.
fn counts_at(words: &[u64]) -> Counts
    requires { length words.now ≡ state_length }
    ensures { result ≡ counts_at words.now }
{
    Counts {
        rows: words[COUNTS_FROM],
        s_words: words[COUNTS_FROM + 1],
        cells: words[COUNTS_FROM + 2],
        tables: words[COUNTS_FROM + 3],
        table_rows: words[COUNTS_FROM + 4],
        phase: words[PHASE_AT],
    }
}

// What words hold as a state.
#[tactic(auto, unfolding(crate::specs::Holding::held_at))]
pub fn held_at(words: &[u64]) -> Held
    ensures { held_with (outlined result.outline) result.counts ≡ held_at words.now }
{
    if words.len() != STATE_WORDS {
        let none = Counts {
            rows: 0,
            s_words: 0,
            cells: 0,
            tables: 0,
            table_rows: 0,
            phase: NEVER,
        };
        return Held {
            outline: None,
            counts: none,
        };
    }
    Held {
        outline: outline_at(words),
        counts: counts_at(words),
    }
}

// The marks of a state's words; of another number of words zeros.
pub fn marks_of(words: &[u64]) -> Marks
    ensures { result ≡ marks_read words.now }
{
    let mut used = [0; MOST_GATES];
    if words.len() == STATE_WORDS {
        used.copy_from_slice(&words[USED_FROM..PHASE_AT]);
    }
    used
}
