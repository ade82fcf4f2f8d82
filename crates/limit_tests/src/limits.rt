//! Files of 2^30 bytes, the most that a file may have, and of more. Each takes some seconds to read, so that a test has one of them.
use crate::cases::{BARE, BOTH, Form, ONE, holds};
use mm_text::MmFault;
use std::test::Fail;

// the most bytes of a file
const MOST: u64 = 1 << 30;

// the end of the last line is the last byte that may stand there
#[test]
fn a_file_of_most_bytes(rt: HostRuntime) -> Result<(), Fail> {
    let case = (ONE, "7\n", None);
    holds(&rt, rt.alloc(), Form::Matrix, &case, MOST - 2)
}

// the end of the last line is the next one, since a carriage return counts
#[test]
fn a_file_of_one_byte_more(rt: HostRuntime) -> Result<(), Fail> {
    let case = (ONE, "7\r\n", Some((1, MmFault::FileLong)));
    holds(&rt, rt.alloc(), Form::Matrix, &case, MOST - 2)
}

// a word after the last value is the last byte that may stand there
#[test]
fn a_word_at_the_last_byte(rt: HostRuntime) -> Result<(), Fail> {
    let case = (BOTH, "8", Some((1, MmFault::TooMany(2))));
    holds(&rt, rt.alloc(), Form::Piece, &case, MOST - 1)
}

// it is the next one
#[test]
fn a_word_after_the_last_byte(rt: HostRuntime) -> Result<(), Fail> {
    let case = (BOTH, "\n8", Some((2, MmFault::FileLong)));
    holds(&rt, rt.alloc(), Form::Matrix, &case, MOST - 1)
}

// a line of 1,025 bytes, one of them no text, stands in the place of the size line, and its end is the last byte that may stand there
#[test]
fn a_long_line_before_the_last_byte(rt: HostRuntime) -> Result<(), Fail> {
    let case = (BARE, "_\u{1}\n8", Some((1, MmFault::LineLong)));
    holds(&rt, rt.alloc(), Form::Matrix, &case, MOST - 1026)
}

// its end is the next one
#[test]
fn a_long_line_at_the_last_byte(rt: HostRuntime) -> Result<(), Fail> {
    let case = (BARE, "_\u{1}\n8", Some((1, MmFault::FileLong)));
    holds(&rt, rt.alloc(), Form::Piece, &case, MOST - 1025)
}
