//! The integers of a line.
ghost use Rattle.std.specs.Prelude.{◌≡◌, ◌≤◌, ◌^◌, ℕ, pos, neg_ℤ};
ghost use Rattle.std.specs.Option.{option_map};
ghost use Rattle.line_text.specs.Numbers.{digits_number, signed_number};
ghost use Rattle.line_text.specs.Integers.{IsFound, in_32_bits};

use crate::numbers::number_up_to;

const BOUND: u64 = 1 << 31;

/// An integer that a word writes, of any size.
#[derive(Clone, Copy, Debug, PartialEq, Eq)]
pub enum Integer {
    /// It is in the range of an `i32`.
    Fits(i32),
    /// It isn't.
    OutOfRange,
}

// The number that digits write.
#[tactic(auto, using(crate::proofs::IntegerSteps::no_number, crate::proofs::IntegerSteps::below_cap, crate::proofs::IntegerSteps::positive_past))]
fn positive(digits: &[u8]) -> Option<Integer>
    ensures { IsFound result (option_map (λ n. pos n) (digits_number digits.now)) }
{
    let Some(number) = number_up_to(digits, BOUND) else {
        return None;
    };
    if number < BOUND {
        Some(Integer::Fits(number as i32))
    } else {
        Some(Integer::OutOfRange)
    }
}

// The negative of the number that digits write.
#[tactic(auto, using(crate::proofs::IntegerSteps::no_number, crate::proofs::IntegerSteps::below_cap, crate::proofs::IntegerSteps::negative_past))]
fn negative(digits: &[u8]) -> Option<Integer>
    ensures { IsFound result (option_map (λ n. neg_ℤ (pos n)) (digits_number digits.now)) }
{
    let Some(number) = number_up_to(digits, BOUND + 1) else {
        return None;
    };
    if number <= BOUND {
        Some(Integer::Fits((-(number as i64)) as i32))
    } else {
        Some(Integer::OutOfRange)
    }
}

/// The integer that a word writes: digits, with a plus or a minus in front or none. None where the word is no integer.
#[tactic(auto, unfolding(crate::specs::Numbers::signed_number))]
pub fn read_integer(word: &[u8]) -> Option<Integer>
    ensures { IsFound result (signed_number word.now) }
{
    match word {
        [first, digits @ ..] => match *first {
            b'-' => negative(digits),
            b'+' => positive(digits),
            _ => positive(word),
        },
        [] => None,
    }
}

/// The integer that a word writes, where it has 32 bits.
#[tactic(auto, using(crate::proofs::IntegerSteps::without_integer, crate::proofs::IntegerSteps::in_range, crate::proofs::IntegerSteps::out_of_range))]
pub fn read_i32(word: &[u8]) -> Option<i32>
    ensures { result ≡ in_32_bits (signed_number word.now) }
{
    match read_integer(word) {
        Some(Integer::Fits(number)) => Some(number),
        Some(Integer::OutOfRange) => None,
        None => None,
    }
}
