// Functions for callers in C and Rust. Each takes any words at all; slices pass as pointer and
// length. The answer is a `Result`, which `capi_c` turns into 0 or 01's refusal number.
#![tactic(auto)]

ghost use Rattle.std.specs.Prelude.{◌≡◌};
ghost use Rattle.encoding.specs.Encoding.{plan_length, state_length};

use encoding::encoding::{PLAN_WORDS, STATE_WORDS};

pub mod intake;
pub mod list;
pub mod listed;
pub mod padded;
pub mod planning;

// How many words a plan has.
pub fn kinchoyu_plan_words() -> u64
    ensures { result ≡ plan_length }
{
    PLAN_WORDS as u64
}

// How many words a state has.
pub fn kinchoyu_state_words() -> u64
    ensures { result ≡ state_length }
{
    STATE_WORDS as u64
}
