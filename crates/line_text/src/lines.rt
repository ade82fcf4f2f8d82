//! The lines of a text that is at hand.
ghost use Rattle.std.specs.Prelude.{◌≡◌, ◌≢◌, ◌≤◌, ◌<◌, ◌∷◌, [], length, take, slice_index, MatchOption};
ghost use Rattle.line_text.specs.Lines.{lines, without_return, HasNoEnd};

// How many bytes stand before the first line end.
#[tactic(auto, using(crate::proofs::Fronts::front_none, crate::proofs::Fronts::front_more, crate::proofs::Fronts::front_all))]
fn run_length(text: &[u8]) -> usize
    ensures within { result ≤ length text.now }
    ensures free { HasNoEnd (take result text.now) }
    ensures stops { result < length text.now → slice_index text.now result ≡ 10 }
{
    for (i, byte) in text.iter().enumerate() {
        if *byte == b'\n' {
            return i;
        }
    }
    text.len()
}

// A line without one carriage return at its end.
#[tactic(auto, using(crate::proofs::LineLaws::without_last, crate::proofs::LineLaws::without_none, crate::proofs::LineLaws::without_empty))]
fn trimmed(line: &[u8]) -> &[u8]
    ensures { result.now ≡ without_return line.now }
{
    if line.is_empty() {
        return line;
    }
    let last = line.len() - 1;
    if line[last] == b'\r' {
        &line[..last]
    } else {
        line
    }
}

/// The first line of a text and what stands after it; none where the text has no line.
#[tactic(auto, using(crate::proofs::LineLaws::none))]
pub fn next_line(text: &[u8]) -> Option<(&[u8], &[u8])>
    ensures { MatchOption result (lines text.now ≡ []) (λ found. lines text.now ≡ found.0.now ∷ lines found.1.now) }
{
    if text.is_empty() {
        return None;
    }
    let length = run_length(text);
    let line = trimmed(&text[..length]);
    if length < text.len() {
        Some((line, &text[length + 1..]))
    } else {
        Some((line, &text[length..]))
    }
}
