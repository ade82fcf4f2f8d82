//! Names and numbers among the words.
ghost use Rattle.std.specs.Prelude.{◌≡◌, ◌≤◌, ◌==◌, ◌&&◌, nat_le, Some, None, if◌then◌else◌, IfSome};
ghost use Rattle.std.specs.List.{list_any};
ghost use Rattle.tool_words.specs.CommandWords.{number_within};
ghost use Rattle.tool_words.specs.FileName.{is_name};

use line_text::is_digits;

fn has_zero(bytes: &[u8]) -> bool
    ensures { result ≡ list_any (λ b. b == 0) bytes.now }
{
    bytes.iter().any(|byte| *byte == 0)
}

// A name of a file: 1 to 1,024 bytes, none of them 0.
pub(crate) fn is_file_name(text: &str) -> bool
    ensures { result ≡ is_name text.now }
{
    !text.is_empty() && text.len() <= 1024 && !has_zero(text.as_bytes())
}

// This number, where it's within these bounds.
fn within(number: u64, low: u64, high: u64) -> Option<u64>
    ensures { result ≡ if nat_le low number && nat_le number high then Some number else None }
{
    if low <= number && number <= high {
        Some(number)
    } else {
        None
    }
}

// A number of 1 to 20 digits without a sign, within these bounds.
pub(crate) fn long_number(text: &str, low: u64, high: u64) -> Option<u64>
    ensures { result ≡ number_within low high text.now }
{
    if text.len() > 20 {
        return None;
    }
    if !is_digits(text.as_bytes()) {
        return None;
    }
    match text.parse::<u64>() {
        Ok(number) => within(number, low, high),
        Err(_) => None,
    }
}

// The same where the bounds are small.
#[tactic(auto, using(crate::proofs::NumberLaws::number_fits))]
pub(crate) fn number(text: &str, low: u32, high: u32) -> Option<u32>
    ensures value { result ≡ number_within low high text.now }
    ensures high { IfSome result (λ n. n ≤ high) }
{
    let number = long_number(text, u64::from(low), u64::from(high))?;
    Some(number as u32)
}
