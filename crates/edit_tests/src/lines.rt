//! Lines, words and numbers of texts, read a second time: by whole lists, and with no code of the tool.
use std::alloc::{AllocError, AllocFailed, Global};
use std::mem;

/// Why a second reading stops.
#[derive(Drop)]
pub(crate) enum Stop {
    /// The line, counted from 1, and the text of its refusal.
    Refused(usize, String),
    /// A file isn't there.
    Missing,
    NoMemory,
}

impl From<AllocError> for Stop {
    fn from(_error: AllocError) -> Stop {
        Stop::NoMemory
    }
}

impl<T: Drop> From<AllocFailed<T>> for Stop {
    fn from(_error: AllocFailed<T>) -> Stop {
        Stop::NoMemory
    }
}

/// The refusal of a line of a file, counted from 1.
pub(crate) fn refusal(alloc: Global, line: usize, text: &str) -> Stop {
    match String::from_str(alloc, text) {
        Ok(text) => Stop::Refused(line, text),
        Err(_) => Stop::NoMemory,
    }
}

// A line without the carriage return at its end.
fn bare(mut line: Vec<u8>) -> Vec<u8> {
    if line.as_slice().last() == Some(&b'\r') {
        let _return = line.pop();
    }
    line
}

/// The lines of a file without their ends.
pub(crate) fn lines_of(alloc: Global, file: &[u8]) -> Result<Vec<Vec<u8>>, AllocError> {
    let mut lines = Vec::new(alloc);
    let mut line = Vec::new(alloc);
    for byte in file {
        if *byte == b'\n' {
            lines.push(bare(mem::replace(&mut line, Vec::new(alloc))))?;
        } else {
            line.push(*byte)?;
        }
    }
    if !line.is_empty() {
        lines.push(bare(line))?;
    }
    Ok(lines)
}

/// The words of a line of text.
pub(crate) fn words_of(alloc: Global, line: &[u8]) -> Result<Vec<String>, AllocError> {
    let mut words = Vec::new(alloc);
    let mut word = String::new(alloc);
    for byte in line {
        if *byte != b' ' && *byte != b'\t' {
            word.push(char::from(*byte))?;
        } else if !word.is_empty() {
            words.push(mem::replace(&mut word, String::new(alloc)))?;
        }
    }
    if !word.is_empty() {
        words.push(word)?;
    }
    Ok(words)
}

fn is_text(byte: u8) -> bool {
    byte == b'\t' || (byte >= 32 && byte <= 126)
}

/// What is wrong with a line whatever stands in it.
pub(crate) fn line_fault(line: &[u8], may_hold_any: bool) -> Option<&'static str> {
    if line.len() > 1024 {
        Some("line too long")
    } else if !may_hold_any && !line.iter().all(|byte| is_text(*byte)) {
        Some("byte that is not text")
    } else {
        None
    }
}

/// A number of digits, after one of some signs or none; one of too many digits stops at the last number of 64 bits.
pub(crate) fn number(word: &str, signs: &[u8]) -> Option<i64> {
    let bytes = word.as_bytes();
    let (sign, digits) = match bytes.split_first() {
        Some((first, rest)) if signs.contains(first) => (*first, rest),
        _ => (b'+', bytes),
    };
    if digits.is_empty() {
        return None;
    }
    let mut value = 0i64;
    for digit in digits {
        if !digit.is_ascii_digit() {
            return None;
        }
        value = value
            .saturating_mul(10)
            .saturating_add(i64::from(digit.wrapping_sub(b'0')));
    }
    Some(if sign == b'-' {
        value.wrapping_neg()
    } else {
        value
    })
}

/// Whether a word is this one of small letters, in any case.
pub(crate) fn is_word(word: &str, small: &str) -> bool {
    word.len() == small.len()
        && word
            .bytes()
            .zip(small.bytes())
            .all(|(one, other)| one.to_ascii_lowercase() == other)
}
