// What is asked of an unpadded circuit before a word is written: the length and the first kind 1
// gate, or the refusal.
ghost use Rattle.std.specs.Prelude.{◌≡◌, ◌<◌, ◌^◌, ◌≤◌, length, leb, IfSome};
ghost use Rattle.base.specs.Each.{Each};
ghost use Rattle.base.specs.Exponent.{exponent};
ghost use Rattle.base.specs.Pick.{pick};
ghost use Rattle.labels.specs.Ranges.{longest_trace};
ghost use Rattle.parameters.specs.Parameters.{parameter_words};
ghost use Rattle.pieces.specs.Records.{rows_of, tables_of};
ghost use Rattle.pieces.specs.RecordLaws.{Whole};
ghost use Rattle.pieces.specs.Tables.{sum_rows};
ghost use Rattle.padding.specs.Padding.{filler_of, with_trace};
ghost use Rattle.selector.specs.Refusals.{count_of_gates};
ghost use Rattle.padding.specs.Judging.{Capped, Judging, gate_or, six_of};

use base::{greater, power_above};
use columns::sections::{Sections, unpadded_number};
use labels::LONGEST_TRACE;
use parameters::parameters::{Parameters, parameters_at};
use refusal::Refusal;
use selector::GATE_WORDS;
use tree::planning::plan;

// How an unpadded circuit is padded: its length then, and the gate of the missing rows.
#[derive(Clone, Copy)]
pub(crate) struct Judged {
    pub length: u64,
    pub gate: u64,
}

// The rows of all tables together, or more than 65,536 where they are more: the sum itself could
// wrap.
fn table_rows(tables: &[u64]) -> u64
    requires { Each Whole (tables_of tables.now) }
    ensures { Capped (sum_rows 0 (tables_of tables.now)) result }
{
    let mut sum: u64 = 0;
    let mut i: usize = 0;
    // the next table stands as many words on as this one has
    while i < tables.len() {
        let n = tables[i + 1];
        if LONGEST_TRACE - sum < n {
            return LONGEST_TRACE + 1;
        }
        sum += n;
        i += 2 + (tables[i] * n) as usize;
    }
    sum
}

// The first kind 1 gate.
fn filler_gate(gates: &[u64]) -> Option<u64>
    ensures value { gate_or (count_of_gates gates.now) result ≡ filler_of gates.now }
    ensures listed { IfSome result (λ gate. gate < count_of_gates gates.now) }
{
    let many = gates.len() / GATE_WORDS;
    for g in 0..many {
        if gates[g * GATE_WORDS] == 1 {
            return Some(g as u64);
        }
    }
    None
}

// The smallest power of two not below a number; 1, which is in its range, where that passes 65,536.
fn power_or_one(n: u64) -> u64
    ensures { result ≡ pick (leb n longest_trace) (2 ^ exponent n) 1 }
{
    if LONGEST_TRACE < n {
        return 1;
    }
    power_above(n).value
}

// The parameters with another trace length.
fn with_trace(parameters: Parameters, trace: u64) -> Parameters
    ensures { result ≡ with_trace trace parameters }
{
    Parameters {
        trace,
        ..parameters
    }
}

// How the circuit is padded, or its refusal before a word is written.
pub(crate) fn judge(
    eight: &[u64],
    gates: &[u64],
    rows: &[u64],
    many: u64,
    s_words: &[u64],
    cells: &[u64],
    tables: &[u64],
) -> Result<Judged, Refusal>
    requires eight_len { (length eight.now ≡ parameter_words) × (many ≡ length (rows_of rows.now)) × (many ≤ length rows.now) }
    requires each { Each Whole (tables_of tables.now) }
    ensures { Judging (six_of eight.now gates.now rows.now s_words.now cells.now tables.now) result }
{
    let parameters = parameters_at(eight);
    let given = parameters.trace;
    if LONGEST_TRACE < given {
        return Err(Refusal::Parameter);
    }
    let least = greater(many + 1, greater(table_rows(tables), given));
    let length = power_or_one(least);
    let plan = plan(with_trace(parameters, length), gates)?;
    let gate = filler_gate(gates).ok_or(Refusal::NoMarker)?;
    if LONGEST_TRACE < least {
        return Err(Refusal::TooLong);
    }
    let sections = Sections {
        rows,
        s_words,
        cells,
        tables,
    };
    unpadded_number(plan, given, gate, sections)?;
    Ok(Judged { length, gate })
}
