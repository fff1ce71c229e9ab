// Lines, words and numbers of the programs' language.

#![tactic(auto)]

ghost use Rattle.std.specs.Prelude.{◌≡◌, ◌≤◌, ◌==◌, length};
ghost use Rattle.std.specs.List.{position, prefix_len};
ghost use Rattle.words.specs.Words.{before, after, blank, word_length, first_word, past_word, decimal};

fn is_blank(byte: u8) -> bool
    ensures { result ≡ blank byte }
{
    matches!(byte, b' ' | b'\t' | b'\r')
}

// How many blanks the bytes begin with. Two walks of a line each: one over a test would be no shorter than both.
fn blanks(bytes: &[u8]) -> usize
    ensures value { result ≡ prefix_len blank bytes.now }
    ensures bound { result ≤ length bytes.now }
{
    bytes.iter().take_while(|b| is_blank(**b)).count()
}

// How long the word is that the bytes begin with.
fn word_length(bytes: &[u8]) -> usize
    ensures value { result ≡ word_length bytes.now }
    ensures bound { result ≤ length bytes.now }
{
    bytes.iter().take_while(|b| !is_blank(**b)).count()
}

// The place of the first mark.
fn place_of(bytes: &[u8], mark: u8) -> Option<usize>
    ensures { result ≡ position (λ b. b == mark) bytes.now }
{
    bytes.iter().position(|b| *b == mark)
}

// The bytes before the first mark, and those after it; all and none where there is no mark.
pub fn cut(bytes: &[u8], mark: u8) -> (&[u8], &[u8])
    ensures front { result.0.now ≡ before mark bytes.now }
    ensures back { result.1.now ≡ after mark bytes.now }
{
    match place_of(bytes, mark) {
        Some(n) => (&bytes[..n], &bytes[n + 1..]),
        None => (bytes, &[]),
    }
}

// The first word, empty where there is none, and the bytes after it.
pub fn take_word(bytes: &[u8]) -> (&[u8], &[u8])
    ensures word { result.0.now ≡ first_word bytes.now }
    ensures rest { result.1.now ≡ past_word bytes.now }
{
    let (_, solid) = bytes.split_at(blanks(bytes));
    solid.split_at(word_length(solid))
}

// The number that a word of digits writes, or the largest where that is greater; none of another word, at once: a `try_fold` would
// still have the empty word beside it.
pub fn number(word: &[u8]) -> Option<u64>
    ensures { result ≡ decimal 18446744073709551615 word.now }
{
    if word.is_empty() {
        return None;
    }
    let mut n: u64 = 0;
    for byte in word {
        if !byte.is_ascii_digit() {
            return None;
        }
        n = n.saturating_mul(10).saturating_add(u64::from(*byte - b'0'));
    }
    Some(n)
}
