//! The decimal numbers of a line.
ghost use Rattle.std.specs.Prelude.{◌≡◌, ◌≤◌, ◌+◌, ◌-◌, ◌*◌, ◌^◌, min, true, length};
ghost use Rattle.std.specs.Str.{all_ascii_digits};
ghost use Rattle.std.specs.Str.Parse.{digits_value};
ghost use Rattle.std.specs.Option.{option_map};
ghost use Rattle.line_text.specs.Numbers.{digits_number, unsigned_number};

/// Whether all bytes are digits, as they are of no bytes.
#[tactic(auto, using(crate::proofs::NumberSteps::digits_by_all))]
pub fn is_digits(bytes: &[u8]) -> bool
    ensures { result ≡ all_ascii_digits bytes.now }
{
    bytes.iter().all(|byte| byte.is_ascii_digit())
}

// A number with a digit more, or the cap where that is larger.
#[inline]
fn with_digit_up_to(number: u64, digit: u8, cap: u64) -> u64
    requires number { number ≤ cap }
    requires cap { cap ≤ 2 ^ 60 }
    ensures { result ≡ min (number * 10 + (digit - 48)) cap }
{
    (number * 10 + u64::from(digit.saturating_sub(b'0'))).min(cap)
}

// The number that digits write, or the cap where it is larger.
#[tactic(auto, using(crate::proofs::NumberSteps::capped_start, crate::proofs::NumberSteps::capped_more, crate::proofs::NumberSteps::capped_all))]
fn value_up_to(digits: &[u8], cap: u64) -> u64
    requires digits { all_ascii_digits digits.now ≡ true }
    requires cap { cap ≤ 2 ^ 60 }
    ensures { result ≡ min (digits_value 10 digits.now) cap }
{
    let mut number = 0u64;
    for digit in digits {
        number = with_digit_up_to(number, *digit, cap);
    }
    number
}

/// The number that one or more digits write, or `cap` where it is larger; none where there is no byte, or one that is no
/// digit.
#[tactic(auto, unfolding(crate::specs::Numbers::digits_number))]
pub fn number_up_to(text: &[u8], cap: u64) -> Option<u64>
    requires { cap ≤ 2 ^ 60 }
    ensures { result ≡ option_map (λ n. min n cap) (digits_number text.now) }
{
    match text {
        [] => None,
        [_, ..] if is_digits(text) => Some(value_up_to(text, cap)),
        [_, ..] => None,
    }
}

/// The number that one or more digits write, with a plus in front or none, or `cap` where it is larger; none where the word
/// is no such number.
#[tactic(auto, unfolding(crate::specs::Numbers::unsigned_number))]
pub fn unsigned_up_to(word: &[u8], cap: u64) -> Option<u64>
    requires { cap ≤ 2 ^ 60 }
    ensures { result ≡ option_map (λ n. min n cap) (unsigned_number word.now) }
{
    match word {
        [first, digits @ ..] => {
            if *first == b'+' {
                number_up_to(digits, cap)
            } else {
                number_up_to(word, cap)
            }
        }
        [] => None,
    }
}
