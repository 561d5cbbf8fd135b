// S words: the specialised constant columns.
ghost use Rattle.std.specs.Prelude.{◌≡◌, ◌≤◌};
ghost use Rattle.refusal.specs.Refusal.{answer_number};
ghost use Rattle.pieces.specs.SWords.{s_words_fault};

use crate::records::{all_below, test_words};
use refusal::Refusal;

// Tests the words of a piece: one of those that have room is not below p, else there are more.
pub(crate) fn s_words_fault(total: u64, count: u64, piece: &[u64]) -> Result<(), Refusal>
    requires { (count ≤ total) × (total ≤ 4294967296) }
    ensures { answer_number result ≡ s_words_fault total count piece.now }
{
    test_words(
        (total - count) as usize,
        piece,
        |words| all_below(words),
        Refusal::NotAnElement,
    )
}
