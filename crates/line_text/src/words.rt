//! The words of a line.
ghost use Rattle.std.specs.Prelude.{◌≡◌, ◌≢◌, ◌≤◌, ◌<◌, ◌∷◌, [], length, take, drop, slice_index, MatchOption, true, false};
ghost use Rattle.line_text.specs.Words.{is_blank, words, HasNoBlank};

/// A space or a tab.
#[inline]
pub fn is_blank_byte(byte: u8) -> bool
    ensures { result ≡ is_blank byte }
{
    byte == b' ' || byte == b'\t'
}

// How many blanks stand first.
#[tactic(auto, using(crate::proofs::WordLaws::skip_blank, crate::proofs::WordLaws::blanks_all))]
fn blanks(text: &[u8]) -> usize
    ensures within { result ≤ length text.now }
    ensures same { words (drop result text.now) ≡ words text.now }
    ensures stops { result < length text.now → is_blank (slice_index text.now result) ≡ false }
{
    for (i, byte) in text.iter().enumerate() {
        if !is_blank_byte(*byte) {
            return i;
        }
    }
    text.len()
}

// How many bytes stand before the first blank.
#[tactic(auto, using(crate::proofs::Fronts::front_none, crate::proofs::Fronts::front_more, crate::proofs::Fronts::front_all))]
fn word_length(text: &[u8]) -> usize
    ensures within { result ≤ length text.now }
    ensures free { HasNoBlank (take result text.now) }
    ensures stops { result < length text.now → is_blank (slice_index text.now result) ≡ true }
{
    for (i, byte) in text.iter().enumerate() {
        if is_blank_byte(*byte) {
            return i;
        }
    }
    text.len()
}

// The line from its first word on.
#[tactic(auto, using(std::proofs::lemmas::List::take_rest, crate::proofs::WordLaws::rest_stops))]
fn without_blanks(text: &[u8]) -> &[u8]
    ensures same { words result.now ≡ words text.now }
    ensures stops { 0 < length result.now → is_blank (slice_index result.now 0) ≡ false }
{
    &text[blanks(text)..]
}

/// The first word of a line and what stands behind it; none where the line has no word.
#[tactic(auto, using(std::proofs::lemmas::List::take_rest, crate::proofs::WordLaws::no_words, crate::proofs::WordLaws::words_cut, crate::proofs::WordLaws::some_length))]
pub fn next_word(text: &[u8]) -> Option<(&[u8], &[u8])>
    ensures { MatchOption result (words text.now ≡ [])
        (λ found. words text.now ≡ found.0.now ∷ words found.1.now) }
{
    let text = without_blanks(text);
    if text.is_empty() {
        return None;
    }
    let length = word_length(text);
    Some((&text[..length], &text[length..]))
}

/// The first two words of a line and what stands behind them; none where the line has fewer.
pub fn first_two_words(text: &[u8]) -> Option<(&[u8], &[u8], &[u8])>
    ensures { MatchOption result (length (words text.now) < 2)
        (λ found. words text.now ≡ found.0.now ∷ found.1.now ∷ words found.2.now) }
{
    let Some((first, rest)) = next_word(text) else {
        return None;
    };
    let Some((second, rest)) = next_word(rest) else {
        return None;
    };
    Some((first, second, rest))
}

/// The word of a line that has exactly one.
pub fn only_word(text: &[u8]) -> Option<&[u8]>
    ensures { MatchOption result (length (words text.now) ≢ 1) (λ word. words text.now ≡ word.now ∷ []) }
{
    let Some((word, rest)) = next_word(text) else {
        return None;
    };
    match next_word(rest) {
        Some(_) => None,
        None => Some(word),
    }
}
