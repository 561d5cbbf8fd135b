// An unpadded circuit, padded to the trace length: from a listing to a listing.
ghost use Rattle.std.specs.Prelude.{◌≡◌, ◌+◌, ltb};
ghost use Rattle.listing.specs.Listing.{read, whole};
ghost use Rattle.listing.specs.Places.{words_at};
ghost use Rattle.refusal.specs.Refusal.{answer_number, answer_or};
ghost use Rattle.writer.specs.Hand.{hand_answer, hand_left, hand_number};
ghost use Rattle.writer.specs.Put.{put};
ghost use Rattle.listing.specs.Writing.{written};
ghost use Rattle.padding.specs.Padding.{padded, pad_number, pad_answer, pad_left};
ghost use Rattle.padding.specs.Judging.{six_of};
ghost use Rattle.padding.specs.Parts.{Small, Fitting, more_words, laid};

use crate::judging::judge;
use crate::parts::{put_column_section, put_counted, put_parameters, put_row_section};
use cs::Variable;
use listing::cursor::{part_of, sections_of};
use listing::sections::Sections;
use parameters::parameters::PARAMETER_WORDS;
use refusal::Refusal;
use selector::GATE_WORDS;

// The count of the rows stands behind the parameters and the gates, each after its count.
const ROWS_COUNT_AFTER: usize = PARAMETER_WORDS + 2;

// The padded listing at the front of a buffer that has room for it.
fn write_padded(
    long: u64,
    gate: u64,
    many: u64,
    last: u64,
    eight: &[u64],
    gates: &[u64],
    rows: &[u64],
    s_words: &[u64],
    cells: &[u64],
    tables: &[u64],
    out: &mut [u64],
)
    requires { Fitting long many (six_of eight.now gates.now rows.now s_words.now cells.now tables.now) out.old }
    ensures { out.new ≡ put 0 (laid long gate many last (six_of eight.now gates.now rows.now s_words.now cells.now tables.now)) out.old }
{
    let height = eight[0] as usize;
    let copies = eight[1] as usize;
    let special = eight[3] as usize;
    let length = long as usize;
    let missing = (long - many) as usize;
    let at_gates = put_parameters(long, eight, out);
    let at_rows = put_counted((gates.len() / GATE_WORDS) as u64, gates, at_gates, out);
    let at_s_words = put_row_section(long, rows, gate, missing, at_rows, out);
    let at_cells = put_column_section(special, height, length, 0, s_words, at_s_words, out);
    let fill = Variable::placeholder();
    let at_tables = put_column_section(copies, height, length, fill.0, cells, at_cells, out);
    put_counted(last, tables, at_tables, out);
}

// How many words more than the given ones the padded listing has.
fn words_more(long: u64, many: u64, eight: &[u64]) -> usize
    requires { Small long many eight.now }
    ensures { result ≡ more_words long many eight.now }
{
    let rows = (long - many) as usize;
    let words = (long - eight[0]) as usize;
    let special = eight[3] as usize;
    let copies = eight[1] as usize;
    2 * rows + special * words + copies * words
}

// Whether a buffer is too short for so many words and some more, whose sum could wrap.
fn too_short(room: usize, words: usize, more: usize) -> bool
    ensures { result ≡ ltb room (words + more) }
{
    room < words || room - words < more
}

// The circuit whose sections stand at these places of the words.
fn pad_parts(words: &[u64], sections: Sections, out: &mut [u64]) -> Result<u64, Refusal>
    requires { read words.now ≡ whole (words_at words.now sections) }
    ensures number { answer_number result ≡ hand_number (pad_number (words_at words.now sections)) (written (padded (words_at words.now sections))) out.old }
    ensures many { answer_or 0 result ≡ (hand_answer (pad_number (words_at words.now sections)) (written (padded (words_at words.now sections))) out.old).words }
    ensures out_after { out.new ≡ hand_left (pad_number (words_at words.now sections)) (written (padded (words_at words.now sections))) out.old }
{
    let eight = part_of(words, sections.parameters.start, sections.parameters.len);
    let gates = part_of(words, sections.gates.start, sections.gates.len);
    let rows = part_of(words, sections.rows.start, sections.rows.len);
    let s_words = part_of(words, sections.s_words.start, sections.s_words.len);
    let cells = part_of(words, sections.cells.start, sections.cells.len);
    let tables = part_of(words, sections.tables.start, sections.tables.len);
    let many = words[ROWS_COUNT_AFTER + gates.len()];
    let judged = judge(eight, gates, rows, many, s_words, cells, tables)?;
    let more = words_more(judged.length, many, eight);
    if too_short(out.len(), words.len(), more) {
        return Err(Refusal::ShortBuffer);
    }
    let tables_at = words.len() - 1 - tables.len();
    write_padded(
        judged.length,
        judged.gate,
        many,
        words[tables_at],
        eight,
        gates,
        rows,
        s_words,
        cells,
        tables,
        out,
    );
    Ok((words.len() + more) as u64)
}

// Reads a listing and writes the padded one to the front of `out`; answers how many words it has. A refusal writes nothing.
pub fn pad(words: &[u64], out: &mut [u64]) -> Result<u64, Refusal>
    ensures number { answer_number result ≡ (pad_answer words.now out.old).number }
    ensures many { answer_or 0 result ≡ (pad_answer words.now out.old).words }
    ensures out_after { out.new ≡ pad_left words.now out.old }
{
    let sections = sections_of(words)?;
    pad_parts(words, sections, out)
}
