//! Words that stand for something by a character or by their text.
ghost use Rattle.std.specs.Prelude.{◌≡◌, codes, ◌==◌};
ghost use Rattle.std.specs.Str.{str_eq_ignore_ascii_case};
ghost use Rattle.grid_lang.specs.WordKinds.{only_character, order, topology, topology_of, uplo_of, uplo, diag_of, diag, character, small_number, scope_of, scope, pieces};
ghost use Rattle.line_text.specs.Numbers.{digits_number};

use crate::fault::LangFault;
use line_text::number_up_to;
use pack_words::{Diag, Uplo};
use proc_grid::{Order, Scope};
use route_tree::Top;

// The byte of a word that has exactly one.
fn only_byte(word: &[u8]) -> Option<u8>
    ensures { result ≡ only_character word.now }
{
    match word {
        [byte] => Some(*byte),
        _ => None,
    }
}

/// R or C.
#[tactic(auto, unfolding(crate::specs::WordKinds::order))]
pub(crate) fn read_order(word: &[u8]) -> Result<Order, LangFault>
    ensures { result ≡ order word.now }
{
    match only_byte(word) {
        Some(byte) => match Order::read(byte as char) {
            Some(order) => Ok(order),
            None => Err(LangFault::Unknown),
        },
        None => Err(LangFault::Unknown),
    }
}

fn uplo_letter(byte: u8) -> Option<Uplo>
    ensures { result ≡ uplo_of byte }
{
    match byte {
        b'U' | b'u' => Some(Uplo::Upper),
        b'L' | b'l' => Some(Uplo::Lower),
        _ => None,
    }
}

fn diag_letter(byte: u8) -> Option<Diag>
    ensures { result ≡ diag_of byte }
{
    match byte {
        b'N' | b'n' => Some(Diag::N),
        b'U' | b'u' => Some(Diag::U),
        _ => None,
    }
}

/// U or L.
#[tactic(auto, unfolding(crate::specs::WordKinds::uplo))]
pub(crate) fn read_uplo(word: &[u8]) -> Result<Uplo, LangFault>
    ensures { result ≡ uplo word.now }
{
    match only_byte(word) {
        Some(byte) => match uplo_letter(byte) {
            Some(uplo) => Ok(uplo),
            None => Err(LangFault::Unknown),
        },
        None => Err(LangFault::Unknown),
    }
}

/// N or U.
#[tactic(auto, unfolding(crate::specs::WordKinds::diag))]
pub(crate) fn read_diag(word: &[u8]) -> Result<Diag, LangFault>
    ensures { result ≡ diag word.now }
{
    match only_byte(word) {
        Some(byte) => match diag_letter(byte) {
            Some(diag) => Ok(diag),
            None => Err(LangFault::Unknown),
        },
        None => Err(LangFault::Unknown),
    }
}

fn topology_letter(byte: u8) -> Option<Top>
    ensures { result ≡ topology_of byte }
{
    if byte == b'-' {
        Top::read(' ')
    } else {
        Top::read(byte as char)
    }
}

/// A topology: one character, and `-` stands for the blank.
#[tactic(auto, unfolding(crate::specs::WordKinds::topology))]
pub(crate) fn read_topology(word: &[u8]) -> Result<Top, LangFault>
    ensures { result ≡ topology word.now }
{
    match only_byte(word) {
        Some(byte) => match topology_letter(byte) {
            Some(top) => Ok(top),
            None => Err(LangFault::Unknown),
        },
        None => Err(LangFault::Unknown),
    }
}

/// Any character.
#[tactic(auto, unfolding(crate::specs::WordKinds::character))]
pub(crate) fn read_character(word: &[u8]) -> Result<char, LangFault>
    ensures { result ≡ character word.now }
{
    match only_byte(word) {
        Some(byte) => Ok(byte as char),
        None => Err(LangFault::Unknown),
    }
}

// The number of a process row or column, in the range of an `i32`.
#[tactic(auto, using(crate::proofs::ScopeSteps::no_digits, crate::proofs::ScopeSteps::small, crate::proofs::ScopeSteps::large))]
fn line_number(digits: &[u8]) -> Option<u32>
    ensures { result ≡ small_number (digits_number digits.now) }
{
    let Some(number) = number_up_to(digits, 1 << 31) else {
        return None;
    };
    if number < 1 << 31 {
        Some(number as u32)
    } else {
        None
    }
}

#[tactic(auto, unfolding(crate::specs::WordKinds::scope_of))]
fn scope_word(word: &[u8]) -> Option<Scope>
    ensures { result ≡ scope_of word.now }
{
    match word {
        [first, digits @ ..] => {
            if *first == b'A' || *first == b'a' {
                if digits.is_empty() {
                    Some(Scope::All)
                } else {
                    None
                }
            } else if *first == b'R' || *first == b'r' {
                match line_number(digits) {
                    Some(row) => Some(Scope::Row(row)),
                    None => None,
                }
            } else if *first == b'C' || *first == b'c' {
                match line_number(digits) {
                    Some(column) => Some(Scope::Column(column)),
                    None => None,
                }
            } else {
                None
            }
        }
        [] => None,
    }
}

/// `A`, or `R` or `C` with a number.
#[tactic(auto, unfolding(crate::specs::WordKinds::scope))]
pub(crate) fn read_scope(word: &[u8]) -> Result<Scope, LangFault>
    ensures { result ≡ scope word.now }
{
    match scope_word(word) {
        Some(scope) => Ok(scope),
        None => Err(LangFault::Unknown),
    }
}

/// The word PIECES.
#[tactic(auto, unfolding(crate::specs::WordKinds::pieces))]
pub(crate) fn read_pieces(word: &[u8]) -> Result<(), LangFault>
    ensures { result ≡ pieces word.now }
{
    if is_text_of(word, b"PIECES") {
        Ok(())
    } else {
        Err(LangFault::Unknown)
    }
}

fn is_text_of(word: &[u8], text: &[u8]) -> bool
    ensures { result ≡ str_eq_ignore_ascii_case word.now text.now }
{
    word.eq_ignore_ascii_case(text)
}
