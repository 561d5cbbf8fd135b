// The whole test of a listing: where each section's words stand, or 20. No number is made before it is known to be within
// the words, so none wraps, whatever the counts say.
ghost use Rattle.std.specs.Prelude.{◌≡◌, length, ok_or};
ghost use Rattle.pieces.specs.Records.{row_size, table_size};
ghost use Rattle.refusal.specs.declared.Refusal.{Refusal};
ghost use Rattle.listing.specs.Ends.{fixed_end, records_end, listing_from};
ghost use Rattle.listing.specs.Places.{section_of};

use parameters::parameters::PARAMETER_WORDS;
use refusal::Refusal;
use selector::GATE_WORDS;

// A section's words: where they begin in the listing, after their count, and how many they are.
#[derive(Clone, Copy)]
pub struct Part {
    pub start: usize,
    pub len: usize,
}

#[derive(Clone, Copy)]
pub struct Sections {
    pub parameters: Part,
    pub gates: Part,
    pub rows: Part,
    pub s_words: Part,
    pub cells: Part,
    pub tables: Part,
}

// Words of a gate.
const GATE_SIZE: u64 = GATE_WORDS as u64;

// The section whose count stands at a place, of records that are all as long: parameters, gates, S words, cell words.
#[tactic(auto, using(crate::specs::EndLaws::found, crate::specs::EndLaws::missing), unfolding(crate::specs::Ends::fixed_end))]
fn fixed_section(words: &[u64], at: usize, each: u64) -> Option<Part>
    ensures { result ≡ section_of (length words.now) at (fixed_end each words.now at) }
{
    let n = *words.get(at)?;
    let start = at + 1;
    let len = n.checked_mul(each)?;
    if ((words.len() - start) as u64) < len {
        return None;
    }
    Some(Part {
        start,
        len: len as usize,
    })
}

// The rows whose count stands at a place. A row is two words, gate and number of constants, and the constants.
#[tactic(auto, using(crate::specs::EndLaws::record_walk))]
fn rows_section(words: &[u64], at: usize) -> Option<Part>
    ensures { result ≡ section_of (length words.now) at (records_end row_size words.now at) }
{
    let count = *words.get(at)?;
    let start = at + 1;
    let mut i = start;
    for _row in 0..count {
        if words.len() - i < 2 {
            return None;
        }
        let n = words[i + 1] as usize;
        if words.len() - i - 2 < n {
            return None;
        }
        i += 2 + n;
    }
    Some(Part {
        start,
        len: i - start,
    })
}

// The tables whose count stands at a place. A table is two words, width and rows, and the contents.
#[tactic(auto, using(crate::specs::EndLaws::record_walk))]
fn tables_section(words: &[u64], at: usize) -> Option<Part>
    ensures { result ≡ section_of (length words.now) at (records_end table_size words.now at) }
{
    let count = *words.get(at)?;
    let start = at + 1;
    let mut i = start;
    for _table in 0..count {
        if words.len() - i < 2 {
            return None;
        }
        let n = words[i].checked_mul(words[i + 1])?;
        if ((words.len() - i - 2) as u64) < n {
            return None;
        }
        i += 2 + n as usize;
    }
    Some(Part {
        start,
        len: i - start,
    })
}

// The sections of a listing that begins at a place. None where the parameters are not eight, a word is missing, or one is left over.
fn whole_sections(words: &[u64], at: usize) -> Option<Sections>
    ensures { ok_or result Refusal.Listing ≡ listing_from words.now at }
{
    let parameters = fixed_section(words, at, 1)?;
    if parameters.len != PARAMETER_WORDS {
        return None;
    }
    let gates = fixed_section(words, parameters.start + parameters.len, GATE_SIZE)?;
    let rows = rows_section(words, gates.start + gates.len)?;
    let s_words = fixed_section(words, rows.start + rows.len, 1)?;
    let cells = fixed_section(words, s_words.start + s_words.len, 1)?;
    let tables = tables_section(words, cells.start + cells.len)?;
    if tables.start + tables.len != words.len() {
        return None;
    }
    Some(Sections {
        parameters,
        gates,
        rows,
        s_words,
        cells,
        tables,
    })
}

// The same with the refusal of what is no whole listing.
pub(crate) fn sections_from(words: &[u64], at: usize) -> Result<Sections, Refusal>
    ensures { result ≡ listing_from words.now at }
{
    whole_sections(words, at).ok_or(Refusal::Listing)
}
