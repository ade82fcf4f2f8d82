//! Lines at the edge of the reader's window of 64 KiB.
use crate::cases::{BARE, BOTH, Case, Form, ONE, SIZED, holds};
use mm_text::MmFault;
use std::test::Fail;

// the bytes of the window
const EDGE: u64 = 65_536;

static CASES: [Case; 32] = [
    (BARE, "2 1\n5\n7\n", None),
    (BARE, "2 1\r\n5\r\n7\r\n", None),
    (BARE, "%\u{1}\r\r\n\n2 1\n5\n7", None),
    (BARE, "", Some((1, MmFault::Size))),
    (BARE, "2 1 1\n", Some((1, MmFault::Size))),
    (BARE, "-2 1\n", Some((1, MmFault::Size))),
    (BARE, "2\r1\n", Some((1, MmFault::NotText))),
    (BARE, "%_\n2 1\n", Some((1, MmFault::LineLong))),
    (BARE, "%\r\n%\n2 x\n", Some((3, MmFault::Size))),
    (SIZED, "5\r\n\r\n7\r\n", None),
    (SIZED, "", Some((1, MmFault::TooFew(0, 2)))),
    (SIZED, "5 7\n", Some((1, MmFault::Value))),
    (SIZED, "5\n7.\n", Some((2, MmFault::Value))),
    (SIZED, "5\n", Some((2, MmFault::TooFew(1, 2)))),
    (ONE, "7", None),
    (ONE, "7\r", None),
    (ONE, "7\r\n_\r\n", None),
    (ONE, " _7\n", Some((1, MmFault::LineLong))),
    (ONE, "_\r\r\n", Some((1, MmFault::LineLong))),
    (ONE, "7\r\r\n", Some((1, MmFault::NotText))),
    (ONE, "\r7\n", Some((1, MmFault::NotText))),
    (ONE, "7\r\n8\r\n", Some((2, MmFault::TooMany(2)))),
    (ONE, "2147483648\n", Some((1, MmFault::Range))),
    (ONE, "-2147483649", Some((1, MmFault::Range))),
    (ONE, "", Some((1, MmFault::TooFew(1, 2)))),
    (ONE, " \r\n", Some((2, MmFault::TooFew(1, 2)))),
    (BOTH, "", None),
    (BOTH, "\r\n\n\r", None),
    (BOTH, "\r\r\n", Some((1, MmFault::NotText))),
    (BOTH, "\n%\n", Some((2, MmFault::TooMany(2)))),
    (BOTH, "_ \r\n8\n", Some((1, MmFault::LineLong))),
    (BOTH, "_\r\n8\n", Some((2, MmFault::TooMany(2)))),
];

// Where the tail begins, counted back from a byte after the edge: so that each byte of a short line is the last one of a window.
static BACK: [u64; 18] = [
    0, 1, 2, 3, 4, 5, 6, 7, 8, 9, 10, 11, 12, 13, 512, 1025, 1026, 1027,
];

#[test]
fn lines_at_the_edge_of_the_window(rt: HostRuntime) -> Result<(), Fail> {
    for case in &CASES {
        for back in BACK {
            let before = (EDGE + 1).saturating_sub(back);
            holds(&rt, rt.alloc(), Form::Matrix, case, before)?;
            holds(&rt, rt.alloc(), Form::Piece, case, before)?;
        }
    }
    Ok(())
}
