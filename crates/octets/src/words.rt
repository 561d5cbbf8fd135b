// Words from little-endian bytes.
ghost use Rattle.std.specs.Prelude.{◌≡◌};
ghost use Rattle.octets.specs.Words.{word_at, words_read, words_left};

// The little-endian word number `index`, 0 where its eight bytes are not all there.
pub fn word_at(bytes: &[u8], index: usize) -> u64
    ensures { result ≡ word_at bytes.now index }
{
    let (words, _) = bytes.as_chunks::<8>();
    match words.get(index) {
        Some(word) => u64::from_le_bytes(*word),
        None => 0,
    }
}

// The words of the bytes go to the front of a buffer, as many as are whole and as fit. Answers how
// many.
pub fn read_words(bytes: &[u8], words: &mut [u64]) -> usize
    ensures value { result ≡ words_read bytes.now words.old }
    ensures words_after { words.new ≡ words_left bytes.now words.old }
{
    let many = (bytes.len() / 8).min(words.len());
    for (i, word) in words[..many].iter_mut().enumerate() {
        *word = word_at(bytes, i);
    }
    many
}
