//! Splits a line into words, which are runs of bytes other than blanks.

ghost use Rattle.std.specs.Prelude.{◌≡◌, ◌<◌, ◌≤◌, ℕ, [], ◌∷◌, false, true, length, map, take, slice_index, MatchOption};
ghost use Rattle.words_core.specs.Words.{is_blank, words_of};

use arrayvec::ArrayVec;

/// The largest number of words that are read from a line. A line with a valid command has at most five words. If there is a
/// sixth, the line is a comment or faulty, and the words after the sixth cannot change what the line means.
pub const MAX_WORDS: usize = 6;

fn is_blank(byte: u8) -> bool
    ensures { result ≡ is_blank byte }
{
    byte == b' ' || byte == b'\t'
}

/// Returns the number of blanks at the front of the bytes.
fn blanks_len(bytes: &[u8]) -> usize
    ensures fits { result ≤ length bytes.now }
    ensures blanks { (k : ℕ) → k < result → is_blank (slice_index bytes.now k) ≡ true }
    ensures stops { result < length bytes.now → is_blank (slice_index bytes.now result) ≡ false }
{
    for (i, byte) in bytes.iter().enumerate() {
        if !is_blank(*byte) {
            return i;
        }
    }
    bytes.len()
}

/// Returns the number of bytes before the first blank, or of all bytes if there is no blank.
fn word_len(bytes: &[u8]) -> usize
    ensures fits { result ≤ length bytes.now }
    ensures word { (k : ℕ) → k < result → is_blank (slice_index bytes.now k) ≡ false }
    ensures stops { result < length bytes.now → is_blank (slice_index bytes.now result) ≡ true }
{
    for (i, byte) in bytes.iter().enumerate() {
        if is_blank(*byte) {
            return i;
        }
    }
    bytes.len()
}

/// Returns the first word and the bytes after it, or `None` if there are only blanks.
fn next_word(bytes: &[u8]) -> Option<(&[u8], &[u8])>
    ensures { MatchOption result (words_of bytes.now ≡ []) (λ found. words_of bytes.now ≡ found.0.now ∷ words_of found.1.now) }
{
    let bytes = &bytes[blanks_len(bytes)..];
    if bytes.is_empty() {
        return None;
    }
    Some(bytes.split_at(word_len(bytes)))
}

/// Returns the first six words of a line, in order, or all words if there are fewer.
pub fn split_words(line: &[u8]) -> ArrayVec<&[u8], MAX_WORDS>
    ensures { map (λ word. word.now) result.items ≡ take MAX_WORDS (words_of line.now) }
{
    let mut words = ArrayVec::new();
    let mut rest = line;
    while !words.is_full() {
        let Some((word, after)) = next_word(rest) else {
            return words;
        };
        words.push(word);
        rest = after;
    }
    words
}
