// The lines of a report. Each function takes the place in a lent buffer where its text goes and
// answers the place after it.
ghost use Rattle.std.specs.Prelude.{◌≡◌, List, ◌++◌, ℕ, ◌*◌, ◌<◌, ◌≤◌, length};
ghost use Rattle.octets.specs.Text.{sink, put, field, fields};
ghost use Rattle.base.specs.Digits.{Spelled};
ghost use Rattle.tree.specs.Plan.{plan_fault, plan_selector};
ghost use Rattle.tree.specs.Answers.{selection_told};
ghost use Rattle.tree.specs.Selection.{selector_of};
ghost use Rattle.report.specs.Report.{newline, plan_line, digit, digits_of, steps_field, selector_field, path_line, path_lines, column_lines, ids_line};

use octets::text::{put_bytes, put_field, put_fields};
use refusal::Refusal;
use tree::paths::Path;
use tree::plan::Plan;

// D, K and F.
pub(crate) fn put_plan(plan: Plan, at: usize, out: &mut [u8]) -> usize
    ensures { sink out.new result ≡ put (sink out.old at) (plan_line plan) }
{
    let numbers = [plan.degree, plan.constants, plan.factor];
    let a = put_bytes(b"plan", at, out);
    let b = put_fields(&numbers, a, out);
    put_bytes(b"\n", b, out)
}

// One step of a path.
fn put_digit(step: u64, at: usize, out: &mut [u8]) -> usize
    ensures { sink out.new result ≡ put (sink out.old at) (digit step) }
{
    if step == 1 {
        put_bytes(b"1", at, out)
    } else {
        put_bytes(b"0", at, out)
    }
}

// The steps of a path, the one from the root first.
fn put_digits(bits: u64, steps: u64, at: usize, out: &mut [u8]) -> usize
    ensures { (path : List ℕ) → Spelled path bits steps → sink out.new result ≡ put (sink out.old at) (digits_of path) }
{
    let mut rest = bits;
    let mut place = at;
    for _step in 0..steps {
        place = put_digit(rest % 2, place, out);
        rest /= 2;
    }
    place
}

// The field of a path, which an empty one has not.
fn put_steps(bits: u64, steps: u64, at: usize, out: &mut [u8]) -> usize
    ensures { (path : List ℕ) → Spelled path bits steps → sink out.new result ≡ put (sink out.old at) (steps_field path) }
{
    if steps == 0 {
        return at;
    }
    let a = put_bytes(b" ", at, out);
    put_digits(bits, steps, a, out)
}

// The field of what is answered of a gate: its path, or that it has no selector.
fn put_selection(answer: Result<Option<Path>, Refusal>, at: usize, out: &mut [u8]) -> usize
    ensures { sink out.new result ≡ put (sink out.old at) (selector_field (selector_of (selection_told answer))) }
{
    match answer {
        Ok(Some(path)) => put_steps(path.bits, path.length, at, out),
        Ok(None) => put_bytes(b" none", at, out),
        Err(_) => at,
    }
}

// A gate and its path.
fn put_path(plan: Plan, gate: u64, at: usize, out: &mut [u8]) -> usize
    requires { (plan_fault plan ≡ 0) × (gate < plan.gate_count) }
    ensures { sink out.new result ≡ put (sink out.old at) (path_line (plan_selector plan) gate) }
{
    let a = put_bytes(b"path", at, out);
    let b = put_field(gate, a, out);
    let c = put_selection(plan.path(gate), b, out);
    put_bytes(b"\n", c, out)
}

// All listed gates, in list order.
pub(crate) fn put_paths(plan: Plan, at: usize, out: &mut [u8]) -> usize
    requires { plan_fault plan ≡ 0 }
    ensures { sink out.new result ≡ put (sink out.old at) (path_lines (plan_selector plan) 0 plan.gate_count) }
{
    let mut place = at;
    for gate in 0..plan.gate_count {
        place = put_path(plan, gate, place, out);
    }
    place
}

// A column's number and words, after its name.
fn put_column(name: &[u8], index: u64, words: &[u64], at: usize, out: &mut [u8]) -> usize
    ensures { sink out.new result ≡ put (sink out.old at) (name.now ++ field index ++ fields words.now ++ newline) }
{
    let a = put_bytes(name, at, out);
    let b = put_field(index, a, out);
    let c = put_fields(words, b, out);
    put_bytes(b"\n", c, out)
}

// The first `many` columns of a buffer, each of `trace` words.
pub(crate) fn put_columns(
    name: &[u8],
    trace: usize,
    many: usize,
    words: &[u64],
    at: usize,
    out: &mut [u8],
) -> usize
    requires { (many * trace ≤ length words.now) × (many ≤ 64) × (trace ≤ 65536) }
    ensures { sink out.new result ≡ put (sink out.old at) (column_lines name.now trace words.now 0 many) }
{
    let mut place = at;
    for i in 0..many {
        let column = &words[i * trace..][..trace];
        place = put_column(name, i as u64, column, place, out);
    }
    place
}

// The index of the table-id column, if there is one.
pub(crate) fn put_ids(plan: Plan, at: usize, out: &mut [u8]) -> usize
    ensures { sink out.new result ≡ put (sink out.old at) (ids_line plan) }
{
    let id = plan.table_id().unwrap_or(None);
    let a = put_bytes(b"ids", at, out);
    let b = match id {
        Some(index) => put_field(index, a, out),
        None => a,
    };
    put_bytes(b"\n", b, out)
}
