// Words put into a lent buffer from a place on. A part that does not fit is not written at all.
ghost use Rattle.std.specs.Prelude.{◌≡◌, ◌+◌, ◌≤◌, length, replicate};
ghost use Rattle.writer.specs.Put.{put, put_if};

// The words of a slice go into another, from `at` on. The compiler makes one copy of it, by the memcpy that the archive asks for anyway.
fn copy_words(from: &[u64], at: usize, to: &mut [u64])
    requires { at + length from.now ≤ length to.old }
    ensures { to.new ≡ put at from.now to.old }
{
    for (i, word) in from.iter().enumerate() {
        to[at + i] = *word;
    }
}

// Words from a place of a buffer on; where they do not all fit nothing is written.
#[tactic(auto, using(crate::specs::PutLaws::whole_part), unfolding(crate::specs::Put::put))]
pub fn put_words(words: &[u64], at: usize, out: &mut [u64])
    ensures { out.new ≡ put_if at words.now out.old }
{
    if at <= out.len() && words.len() <= out.len() - at {
        copy_words(words, at, out);
    }
}

// The same for one word, many times.
#[tactic(auto, using(crate::specs::PutLaws::whole_part), unfolding(crate::specs::Put::put))]
pub fn put_same(word: u64, many: usize, at: usize, out: &mut [u64])
    ensures { out.new ≡ put_if at (replicate many word) out.old }
{
    if at <= out.len() && many <= out.len() - at {
        out[at..at + many].fill(word);
    }
}
