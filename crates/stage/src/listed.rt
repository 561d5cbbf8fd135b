// A listing in one call: tested whole (20), then run section by section.
ghost use Rattle.std.specs.Prelude.{◌≡◌};
ghost use Rattle.listing.specs.Places.{words_at};
ghost use Rattle.columns.specs.Intake.{store_of};
ghost use Rattle.stage.specs.Circuit.{staged_by};
ghost use Rattle.stage.specs.Listed.{words_answer, words_left, listed_answer, listed_left};

use crate::circuit::run_sections;
use listing::cursor::{part_of, sections_of};
use listing::sections::Sections;
use parameters::parameters::parameters_at;
use refusal::Refusal;
use tree::plan::Plan;

// The circuit whose sections stand at these places of the words.
fn run_parts(
    words: &[u64],
    sections: Sections,
    constants: &mut [u64],
    copies: &mut [u64],
    scratch: &mut [u64],
    tables: &mut [u64],
) -> Result<Plan, Refusal>
    ensures value { staged_by result ≡ words_answer (words_at words.now sections) (store_of constants.old copies.old scratch.old tables.old) }
    ensures tables_after { store_of constants.new copies.new scratch.new tables.new ≡ words_left (words_at words.now sections) (store_of constants.old copies.old scratch.old tables.old) }
{
    let eight = sections.parameters;
    let gates = sections.gates;
    let rows = sections.rows;
    let s_words = sections.s_words;
    let cells = sections.cells;
    let contents = sections.tables;
    run_sections(
        parameters_at(part_of(words, eight.start, eight.len)),
        part_of(words, gates.start, gates.len),
        part_of(words, rows.start, rows.len),
        part_of(words, s_words.start, s_words.len),
        part_of(words, cells.start, cells.len),
        part_of(words, contents.start, contents.len),
        constants,
        copies,
        scratch,
        tables,
    )
}

// Reads a listing and runs its circuit. 20, or any refusal of the circuit, writes nothing.
pub fn run_listing(
    words: &[u64],
    constants: &mut [u64],
    copies: &mut [u64],
    scratch: &mut [u64],
    tables: &mut [u64],
) -> Result<Plan, Refusal>
    ensures value { staged_by result ≡ listed_answer words.now (store_of constants.old copies.old scratch.old tables.old) }
    ensures tables_after { store_of constants.new copies.new scratch.new tables.new ≡ listed_left words.now (store_of constants.old copies.old scratch.old tables.old) }
{
    let sections = sections_of(words)?;
    run_parts(words, sections, constants, copies, scratch, tables)
}
