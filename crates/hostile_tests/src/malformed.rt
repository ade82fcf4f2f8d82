//! Malformed matrix files, programs and words: each fault at the first place, in the middle and at the last place where it can come.
//!
//! The good matrix is `B/3 2/1/2/3/4/5/6/`.
use crate::malformed_pieces::PIECES;
use crate::setting::Setting;
use std::alloc::{AllocError, Global};
use std::test::Fail;

// Whether a run over some files and one more is refused, with the name of that one and what stands beside it, and saves nothing.
pub(crate) fn is_refused(
    alloc: Global,
    files: &[(&str, &str)],
    file: (&str, &str),
    words: &str,
    fault: &str,
) -> Result<bool, AllocError> {
    let mut setting = Setting::with(alloc, files)?;
    let fits = setting.put(alloc, file.0, file.1)?;
    let status = setting.run(alloc, words)?;
    let line = format!(in alloc; "{}: {fault}", file.0)?;
    Ok(fits && status == 1 && setting.told(alloc, line.as_str())? && setting.saved_nothing())
}

// Texts of matrix files, with the line and the text of the refusal.
static MATRICES: [(&str, &str); 98] = [
    (
        "%%MatrixMarket_ matrix array integer general/3 2/",
        "line 1: line too long",
    ),
    ("B/%^/3 2/1/2/3/4/5/6/", "line 2: line too long"),
    ("B/3 2_/1/2/3/4/5/6/", "line 2: line too long"),
    ("B/3 2/^1/2/3/4/5/6/", "line 3: line too long"),
    ("B/3 2/1/2/_3/4/5/6/", "line 5: line too long"),
    ("B/3 2/1/2/3/4/5/^6/", "line 8: line too long"),
    ("B/3 2/1/2/3/4/5/6/_ /", "line 9: line too long"),
    (
        "\u{1f}%%MatrixMarket matrix array integer general/",
        "line 1: byte that is not text",
    ),
    (
        "%%MatrixMarket matrix\u{b}array integer general/1 1/1/",
        "line 1: byte that is not text",
    ),
    (
        "%%MatrixMarket matrix array integer general\u{7f}/1 1/1/",
        "line 1: byte that is not text",
    ),
    ("B/%/\u{c}%/1 1/1/", "line 3: byte that is not text"),
    ("B/\0 2/1/2/", "line 2: byte that is not text"),
    ("B/3 2\u{e9}/1/2/3/4/5/6/", "line 2: byte that is not text"),
    ("B/3 2/\u{1}/2/3/4/5/6/", "line 3: byte that is not text"),
    ("B/3 2/1/2/%\u{1}/4/5/6/", "line 5: byte that is not text"),
    ("B/3 2/1/2/3\r4/5/6/", "line 5: byte that is not text"),
    ("B/3 2/1/2/3/4/5/6\r\r/", "line 8: byte that is not text"),
    ("B/3 2/1/2/3/4/5/6//\u{0}", "line 10: byte that is not text"),
    ("", "line 1: not a Matrix Market file"),
    (
        "/%%MatrixMarket matrix array integer general/1 1/1/",
        "line 1: not a Matrix Market file",
    ),
    (
        " %%MatrixMarket matrix array integer general/1 1/1/",
        "line 1: not a Matrix Market file",
    ),
    (
        "%%Matrixmarket matrix array integer general/1 1/1/",
        "line 1: not a Matrix Market file",
    ),
    (
        "%%MatrixMarkets matrix array integer general/1 1/1/",
        "line 1: not a Matrix Market file",
    ),
    ("%%MatrixMarket/1 1/1/", "line 1: not a Matrix Market file"),
    (
        "%%MatrixMarket matri array integer general/1 1/1/",
        "line 1: not a Matrix Market file",
    ),
    (
        "%%MatrixMarket vector coordinate real hermitian/",
        "line 1: not a Matrix Market file",
    ),
    (
        "%%MatrixMarket matrix array integer/1 1/1/",
        "line 1: not a Matrix Market file",
    ),
    (
        "%%MatrixMarket matrix array integer general general/1 1/1/",
        "line 1: not a Matrix Market file",
    ),
    (
        "%%MatrixMarket matrix coordinate integer general/",
        "line 1: not an array of integers",
    ),
    (
        "%%MatrixMarket matrix coordinate real hermitian/",
        "line 1: not an array of integers",
    ),
    (
        "%%MatrixMarket matrix array real general/1 1/1/",
        "line 1: not an array of integers",
    ),
    (
        "%%MatrixMarket matrix array complex x/1 1/1/",
        "line 1: not an array of integers",
    ),
    (
        "%%MatrixMarket matrix array integer hermitian/",
        "line 1: unknown symmetry",
    ),
    (
        "%%MatrixMarket matrix array integer generals/1 1/1/",
        "line 1: unknown symmetry",
    ),
    (
        "%%MatrixMarket matrix array integer skew/1 1/",
        "line 1: unknown symmetry",
    ),
    ("B/", "line 2: bad size line"),
    ("B/%/%/", "line 4: bad size line"),
    ("B//%/ /", "line 5: bad size line"),
    ("B/x 2/1/", "line 2: bad size line"),
    ("B/-3 2/1/", "line 2: bad size line"),
    ("B/+ 2/1/", "line 2: bad size line"),
    ("B/3 x/1/", "line 2: bad size line"),
    ("B/3 -2/1/", "line 2: bad size line"),
    ("B/3 2./1/", "line 2: bad size line"),
    ("B/3/2/", "line 2: bad size line"),
    ("B/3 2 6/1/", "line 2: bad size line"),
    ("B/16777217 0/", "line 2: bad size line"),
    ("B/0 16777217/", "line 2: bad size line"),
    ("B/99999999999999999999 0/", "line 2: bad size line"),
    ("B/16777216 5/", "line 2: bad size line"),
    ("B/%/ /8192 8193/1/", "line 4: bad size line"),
    (
        "%%MatrixMarket matrix array integer symmetric/2 3/",
        "line 2: bad size line",
    ),
    (
        "%%MatrixMarket matrix array integer skew-symmetric/%/3 2/",
        "line 3: bad size line",
    ),
    ("B/0 5/1/", "line 3: too many values, want 0"),
    ("B/5 0//%/", "line 4: too many values, want 0"),
    ("B/1 1/1/2", "line 4: too many values, want 1"),
    ("B/3 2/1/2/3/4/5/6/7/", "line 9: too many values, want 6"),
    ("B/3 2/1/2/3/4/5/6/%/", "line 9: too many values, want 6"),
    (
        "B/3 2/1//2/3/4/5/6///x y/",
        "line 12: too many values, want 6",
    ),
    (
        "%%MatrixMarket matrix array integer symmetric/2 2/1/2/3/4/",
        "line 6: too many values, want 3",
    ),
    (
        "%%MatrixMarket matrix array integer skew-symmetric/2 2/1/2/",
        "line 4: too many values, want 1",
    ),
    (
        "%%MatrixMarket matrix array integer skew-symmetric/1 1/0/",
        "line 3: too many values, want 0",
    ),
    ("B/3 2/x/2/3/4/5/6/", "line 3: bad value"),
    ("B/3 2/%/1/2/3/4/5/6/", "line 3: bad value"),
    ("B/3 2/1 2/3/4/5/6/", "line 3: bad value"),
    ("B/3 2/1/2/3.0/4/5/6/", "line 5: bad value"),
    ("B/3 2/1/2//3e0/4/5/6/", "line 6: bad value"),
    ("B/3 2/1/2/--3/4/5/6/", "line 5: bad value"),
    ("B/3 2/1/2/+/4/5/6/", "line 5: bad value"),
    ("B/3 2/1/2/0x3/4/5/6/", "line 5: bad value"),
    ("B/3 2/1/2/3/4/5/6 7/", "line 8: bad value"),
    ("B/3 2/1/2/3/4/5/-/", "line 8: bad value"),
    (
        "B/3 2/1/2/3/4/5/99999999999999999999 x/",
        "line 8: bad value",
    ),
    ("B/1 1/1 2/", "line 3: bad value"),
    ("B/3 2/2147483648/2/3/4/5/6/", "line 3: value out of range"),
    ("B/3 2/1/2/-2147483649/4/5/6/", "line 5: value out of range"),
    (
        "B/3 2/1/2/3/4/5/+99999999999999999999/",
        "line 8: value out of range",
    ),
    (
        "B/3 2/1/2/3/4/5/-00000000000000000000002147483649/",
        "line 8: value out of range",
    ),
    ("B/1 1/18446744073709551617/", "line 3: value out of range"),
    (
        "%%MatrixMarket matrix array integer skew-symmetric/2 2/-2147483648/",
        "line 3: value out of range",
    ),
    (
        "%%MatrixMarket matrix array integer skew-symmetric/3 3/1/-2147483648/3/",
        "line 4: value out of range",
    ),
    (
        "%%MatrixMarket matrix array integer skew-symmetric/3 3/1/2/-2147483648/",
        "line 5: value out of range",
    ),
    (
        "%%MatrixMarket matrix array integer symmetric/2 2/1/2/2147483648/",
        "line 5: value out of range",
    ),
    (
        "B/16777216 4/",
        "line 3: too few values, have 0 want 67108864",
    ),
    ("B/1 1/", "line 3: too few values, have 0 want 1"),
    ("B/3 2", "line 3: too few values, have 0 want 6"),
    ("B/3 2///", "line 5: too few values, have 0 want 6"),
    ("B/3 2/1/2/", "line 5: too few values, have 2 want 6"),
    ("B/3 2/1/2/3/4/5/", "line 8: too few values, have 5 want 6"),
    ("B/3 2/1/2/3/4/5", "line 8: too few values, have 5 want 6"),
    (
        "B/3 2/1/2/3/4/5/ //",
        "line 10: too few values, have 5 want 6",
    ),
    (
        "%%MatrixMarket matrix array integer symmetric/3 3/1/2/3/4/5/",
        "line 8: too few values, have 5 want 6",
    ),
    (
        "%%MatrixMarket matrix array integer symmetric/16777216 16777216/",
        "line 2: bad size line",
    ),
    (
        "%%MatrixMarket matrix array integer symmetric/8192 8192/1/",
        "line 4: too few values, have 1 want 33558528",
    ),
    (
        "%%MatrixMarket matrix array integer skew-symmetric/3 3/1/2/",
        "line 5: too few values, have 2 want 3",
    ),
    (
        "%%MatrixMarket matrix array integer skew-symmetric/2 2/",
        "line 3: too few values, have 0 want 1",
    ),
    ("B/1 1/^1/", "line 3: line too long"),
    ("B/1 1/ ^/", "line 3: line too long"),
];

// A program that loads the file.
const LOADS: &str = "RANKS 1/GRID w R 1 1/ARRAY a w 3 2 3 2 0 0/LOAD a f/SAVE a x.0.0/PRINT a/";

#[test]
fn matrices(rt: HostRuntime) -> Result<(), Fail> {
    let alloc = rt.alloc();
    for (short, fault) in &MATRICES {
        for words in ["split f x 1 1 2 2", "run p", "run p --seed 1"] {
            let refused = is_refused(alloc, &[("p", LOADS)], ("f", *short), words, *fault)?;
            assert!(rt; refused, "{words}: {short}");
        }
    }
    Ok(())
}

// Texts of programs, with the line and the text of the refusal.
static PROGRAMS: [(&str, &str); 62] = [
    ("RANKS 2_/MATRIX v 1 1/PRINT v 0/", "line 1: limit passed"),
    ("RANKS 2/#^/MATRIX v 1 1/PRINT v 0/", "line 2: limit passed"),
    ("RANKS 2/_ /MATRIX v 1 1/PRINT v 0/", "line 2: limit passed"),
    ("RANKS 2/MATRIX v 1 1/PRINT v 0_/", "line 3: limit passed"),
    ("RANKS 2/~~~~", "line 4097: limit passed"),
    ("~~~~RANKS 2/", "line 4097: limit passed"),
    (
        "RANKS 2\u{7f}/MATRIX v 1 1/PRINT v 0/",
        "line 1: byte that is not text",
    ),
    (
        "\u{b}# no comment/RANKS 2/",
        "line 1: byte that is not text",
    ),
    (
        "RANKS 2/MATRIX v\0 1 1/PRINT v 0/",
        "line 2: byte that is not text",
    ),
    (
        "RANKS 2/MATRIX v 1 1/PRINT v 0\u{e9}",
        "line 3: byte that is not text",
    ),
    ("RANK 2/MATRIX v 1 1/PRINT v 0/", "line 1: unknown word"),
    ("%/RANKS 2/", "line 1: unknown word"),
    ("RANKS 2/JUMP/PRINT v 0/", "line 2: unknown word"),
    ("RANKS 2/MATRIX v 1 1/PRINTS v 0/", "line 3: unknown word"),
    ("", "line 1: line out of order"),
    ("#/ /", "line 3: line out of order"),
    ("MATRIX v 1 1/RANKS 2/", "line 1: line out of order"),
    ("RANKS 2/RANKS 2/", "line 2: line out of order"),
    (
        "RANKS 2/MATRIX v 1 1/RANKS x/PRINT v 0/",
        "line 3: line out of order",
    ),
    (
        "RANKS 2/GRID w R 1 1/BARRIER w A/MATRIX v 1 1/",
        "line 4: line out of order",
    ),
    (
        "RANKS 2/GRID w R 1 1/MATRIX v 1 1/PRINT v 0/BARRIER w A/",
        "line 5: line out of order",
    ),
    (
        "RANKS/MATRIX v 1 1/PRINT v 0/",
        "line 1: wrong number of words",
    ),
    ("RANKS 2 2/", "line 1: wrong number of words"),
    (
        "RANKS 2/MATRIX v 1/PRINT v 0/",
        "line 2: wrong number of words",
    ),
    (
        "RANKS 2/MAP g 2 2 0 1 0/PRINT v 0/",
        "line 2: wrong number of words",
    ),
    (
        "RANKS 2/MATRIX v 1 1/PRINT v 0 0/",
        "line 3: wrong number of words",
    ),
    (
        "RANKS 2/MATRIX v 1 1/PRINT/",
        "line 3: wrong number of words",
    ),
    ("RANKS 2/GRID w X 1 1/GRID h R 1 1/", "line 2: unknown word"),
    (
        "RANKS 2/GRID w R 1 2/BARRIER w R/BARRIER w A/",
        "line 3: unknown word",
    ),
    (
        "RANKS 2/GRID w R 1 2/MATRIX v 1 1/BCAST w A 0 0 0 v 1 1 1 1/",
        "line 4: unknown word",
    ),
    (
        "RANKS 2/GRID w R 1 2/ARRAY a w 1 1 1 1 0 0/SAVE a p PIECE/",
        "line 4: unknown word",
    ),
    ("RANKS x/MATRIX v 1 1/PRINT v 0/", "line 1: bad number"),
    ("RANKS -1/", "line 1: bad number"),
    ("RANKS 2147483648/", "line 1: bad number"),
    ("RANKS 2/MATRIX v 1.0 1/PRINT v 0/", "line 2: bad number"),
    (
        "RANKS 2/MATRIX v 1 1/FILL v 0 0 0 -2147483649/PRINT v 0/",
        "line 3: bad number",
    ),
    (
        "RANKS 2/GRID w R 1 2/MATRIX v 1 1/SUM w A H -2 0 v 1 1 1 1/",
        "line 4: bad number",
    ),
    ("RANKS 2/MATRIX v 1 1/PRINT v 2/", "line 3: bad number"),
    ("RANKS 1/GRID 9g R 1 1/", "line 2: bad name"),
    ("RANKS 2/MATRIX v-1 1 1/PRINT v 0/", "line 2: bad name"),
    (
        "RANKS 2/MATRIX aaaaaaaaaaaaaaaaaaaaaaaaaaaaaaaaa 1 1/",
        "line 2: bad name",
    ),
    ("RANKS 2/ARRAY a w 1 1 1 1 0 0/", "line 2: bad name"),
    (
        "RANKS 2/MATRIX v 1 1/FILL w 0 0 0 0/PRINT v 0/",
        "line 3: bad name",
    ),
    ("RANKS 2/MATRIX v 1 1/SAVE v f/", "line 3: bad name"),
    ("RANKS 2/MATRIX v 1 1/PRINT w/", "line 3: bad name"),
    (
        "RANKS 2/MATRIX v 1 1/MATRIX v 1 1/PRINT v 0/",
        "line 3: name given twice",
    ),
    (
        "RANKS 2/GRID w R 1 1/GRID w R 1 1/",
        "line 3: name given twice",
    ),
    (
        "RANKS 2/GRID w R 1 1/MATRIX v 1 1/MATRIX w 1 1/",
        "line 4: name given twice",
    ),
    ("RANKS 65/", "line 1: limit passed"),
    ("RANKS 0/", "line 1: limit passed"),
    ("RANKS 2/MATRIX v 0 1/PRINT v 0/", "line 2: limit passed"),
    (
        "RANKS 2/MATRIX v 1 16777217/PRINT v 0/",
        "line 2: limit passed",
    ),
    (
        "RANKS 2/MATRIX v 1 1/MATRIX u 16777217 1/",
        "line 3: limit passed",
    ),
    ("RANKS 2/GRID w R 2 2/", "line 2: grid needs 4 ranks of 2"),
    ("RANKS 4/MAP g 2 2 0 9 1 0/", "line 2: no process 9"),
    (
        "RANKS 4/MAP g 2 2 0 0 9 1/",
        "line 2: process 0 named twice",
    ),
    (
        "RANKS 4/MAP g 2 2 0 1 1 9/",
        "line 2: process 1 named twice",
    ),
    ("RANKS 4/GRID g R 0 65/", "line 2: bad grid shape 0 65"),
    (
        "RANKS 1/GRID w R 1 1/ARRAY a w 4 4 2 2 0 0 3/",
        "line 3: INFO -9",
    ),
    (
        "RANKS 2/GRID w R 1 2/MATRIX v 2 3/RECV w 0 1 v 1 1 2 3 0 0/",
        "line 4: no message from 0 to 1",
    ),
    (
        "RANKS 2/GRID w R 1 2/MATRIX v 1 1/SEND w 0 0 v 1 1 1 1 0 1/BARRIER w A/",
        "line 5: message from 0 to 1 still waits",
    ),
    (
        "RANKS 1/GRID w R 1 1/MATRIX v 8192 8192/MATRIX u 1 1/",
        "line 4: too many words: 67108865",
    ),
];

#[test]
fn programs(rt: HostRuntime) -> Result<(), Fail> {
    let alloc = rt.alloc();
    for (short, fault) in &PROGRAMS {
        for words in ["check f", "run f", "run --seed 9 f"] {
            let refused = is_refused(alloc, &[], ("f", *short), words, *fault)?;
            assert!(rt; refused, "{words}: {short}");
        }
    }
    Ok(())
}

// Lines outside the table of words: a bad first word, a bad one in the middle, a bad last one, one too few and one too many.
static WORDS: [&str; 46] = [
    "",
    "--",
    "Split f x 1 1 2 2",
    "split f x 0 1 2 2",
    "split f x 1 65 2 2",
    "split f x 5 13 2 2",
    "split f x 1 1 0 2",
    "split f x 1 1 2 16777217",
    "split f x 1 1 2 000000000000000000002",
    "split f x 1 1 2 +2",
    "split f x 1 1 2",
    "split f x 1 1 2 2 2",
    "split -f x 1 1 2 2",
    "split f x 1 1 2 -2",
    "split f x 1 1 2 2 --threads",
    "split f x 1 1 2 2 --seed 1",
    "JOIN p o",
    "join p",
    "join p o o",
    "join -p o",
    "join p -o",
    "join p o --seed=1",
    "moves p o 1 1 4 4",
    "move p o x 1 4 4",
    "move p o 1 1 4",
    "move p o 1 1 4 4 4",
    "move p o 1 1 4 16777217",
    "move p o 9 8 4 4",
    "move --thread p o 1 1 4 4",
    "move p o 1 1 4 4 --seed",
    "move p o 1 1 4 4 --seed 18446744073709551616",
    "move p o 1 1 4 4 --threads --seed 1",
    "move --seed 1 p o 1 1 4 4 --seed 1",
    "move p o 1 1 4 4 --threads=1",
    "checks f",
    "check",
    "check f f",
    "check f --threads",
    "check --seed 1 f",
    "ruN f",
    "run",
    "run f f",
    "run f --seed x",
    "run --seed f",
    "run --threads f --threads",
    "run f --help",
];

const USAGE: &str =
    "usage: gridtool split IN OUT P Q MB NB\n       gridtool join PREFIX OUT\n       gridtool move PREFIX OUT P Q MB NB [--threads | --seed S]\n       gridtool check PROGRAM\n       gridtool run PROGRAM [--threads | --seed S]\n       gridtool load SEED SIZE\n";

// Whether the words of a line show the usage, over files that other words could read.
fn shows_usage(alloc: Global, line: &str) -> Result<bool, AllocError> {
    let mut setting = Setting::with(alloc, &PIECES)?;
    let fits = setting.put(alloc, "f", "B/1 1/5/")?;
    let status = setting.run(alloc, line)?;
    let told = setting.err.bytes() == USAGE.as_bytes() && setting.out.bytes().is_empty();
    Ok(fits && status == 2 && told && setting.saved_nothing())
}

#[test]
fn words_outside_the_table(rt: HostRuntime) -> Result<(), Fail> {
    let alloc = rt.alloc();
    for line in &WORDS {
        assert!(rt; shows_usage(alloc, *line)?, "{line}");
    }
    Ok(())
}
