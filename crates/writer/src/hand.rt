// Words handed out at the front of a lent buffer; one that is too short keeps all its words.
ghost use Rattle.std.specs.Prelude.{◌≡◌};
ghost use Rattle.refusal.specs.Refusal.{answer_number};
ghost use Rattle.writer.specs.Hand.{hand_left, hand_number, handed};

use crate::put::put_words;
use refusal::Refusal;

// Words go to the front of a result slice; one that is too short keeps all its words.
pub fn hand(words: &[u64], out: &mut [u64])
    ensures { out.new ≡ handed words.now out.old }
{
    put_words(words, 0, out);
}

// Words go to the front of a result slice, or 10.
#[tactic(auto, using(crate::proofs::HandLaws::hand_short, crate::proofs::HandLaws::hand_given, crate::proofs::HandLaws::handed_short), unfolding(crate::specs::Hand::hand_left))]
pub fn hand_out(words: &[u64], out: &mut [u64]) -> Result<(), Refusal>
    ensures value { answer_number result ≡ hand_number 0 words.now out.old }
    ensures out_after { out.new ≡ hand_left 0 words.now out.old }
{
    if out.len() < words.len() {
        return Err(Refusal::ShortBuffer);
    }
    hand(words, out);
    Ok(())
}
