//! Malformed pieces: each fault at the first place, in the middle and at the last place where it can come.
//!
//! The good pieces are those of a 3 by 6 matrix in 2 by 4 blocks over 2 by 2 processes.
use crate::malformed::is_refused;
use std::test::Fail;

// The good pieces.
pub(crate) static PIECES: [(&str, &str); 4] = [
    (
        "p.0.0",
        "B/%DESC 2 2 0 0 3 6 2 4 0 0 2/2 4/1/2/4/5/7/8/10/11/",
    ),
    ("p.0.1", "B/%DESC 2 2 0 1 3 6 2 4 0 0 2/2 2/13/14/16/17/"),
    ("p.1.0", "B/%DESC 2 2 1 0 3 6 2 4 0 0 1/1 4/3/6/9/12/"),
    ("p.1.1", "B/%DESC 2 2 1 1 3 6 2 4 0 0 1/1 2/15/18/"),
];

// One piece in the place of the good one, with the line and the text of the refusal.
static BAD_PIECES: [(&str, &str, &str); 84] = [
    (
        "p.0.0",
        "%%MatrixMarket matrix array integer_ general/",
        "line 1: line too long",
    ),
    (
        "p.1.1",
        "B/%DESC 2 2 1 1 3 6 2 4 0 0 1_/1 2/15/18/",
        "line 2: line too long",
    ),
    (
        "p.0.1",
        "B/%DESC 2 2 0 1 3 6 2 4 0 0 2/%^/2 2/13/14/16/17/",
        "line 3: line too long",
    ),
    (
        "p.1.0",
        "B/%DESC 2 2 1 0 3 6 2 4 0 0 1/1 4/3/6/9/_12/",
        "line 7: line too long",
    ),
    ("p.0.0", "\u{1f}", "line 1: byte that is not text"),
    (
        "p.0.1",
        "B/%\u{e9}/%DESC 2 2 0 1 3 6 2 4 0 0 2/",
        "line 2: byte that is not text",
    ),
    (
        "p.1.0",
        "B/%DESC 2 2 1 0 3 6 2 4 0 0 1\u{7f}/1 4/3/6/9/12/",
        "line 2: byte that is not text",
    ),
    (
        "p.1.1",
        "B/%DESC 2 2 1 1 3 6 2 4 0 0 1/1 2/15/18/\0",
        "line 6: byte that is not text",
    ),
    ("p.0.0", "", "line 1: not a Matrix Market file"),
    (
        "p.0.1",
        "%DESC 2 2 0 1 3 6 2 4 0 0 2/2 2/13/14/16/17/",
        "line 1: not a Matrix Market file",
    ),
    (
        "p.1.1",
        "%%MatrixMarket matrix array integer/",
        "line 1: not a Matrix Market file",
    ),
    (
        "p.0.0",
        "%%MatrixMarket matrix array real general/",
        "line 1: not an array of integers",
    ),
    (
        "p.1.0",
        "%%MatrixMarket matrix coordinate integer symmetric/",
        "line 1: not an array of integers",
    ),
    (
        "p.1.1",
        "%%MatrixMarket matrix array int general/",
        "line 1: not an array of integers",
    ),
    (
        "p.0.0",
        "%%MatrixMarket matrix array integer symmetric/%DESC 2 2 0 0 3 6 2 4 0 0 2/",
        "line 1: unknown symmetry",
    ),
    (
        "p.0.1",
        "%%MatrixMarket matrix array integer hermitian/",
        "line 1: unknown symmetry",
    ),
    (
        "p.1.1",
        "%%MatrixMarket matrix array integer skew-symmetric/",
        "line 1: unknown symmetry",
    ),
    ("p.0.0", "B/", "line 2: bad DESC line"),
    (
        "p.0.1",
        "B//%DESC 2 2 0 1 3 6 2 4 0 0 2/2 2/13/14/16/17/",
        "line 2: bad DESC line",
    ),
    ("p.1.0", "B/1 4/3/6/9/12/", "line 2: bad DESC line"),
    (
        "p.1.1",
        "B/ %DESC 2 2 1 1 3 6 2 4 0 0 1/1 2/15/18/",
        "line 2: bad DESC line",
    ),
    (
        "p.0.0",
        "B/%Desc 2 2 0 0 3 6 2 4 0 0 2/2 4/1/2/4/5/7/8/10/11/",
        "line 2: bad DESC line",
    ),
    (
        "p.0.1",
        "B/%DESC x 2 0 1 3 6 2 4 0 0 2/2 2/13/14/16/17/",
        "line 2: bad DESC line",
    ),
    (
        "p.1.0",
        "B/%DESC 2 2 1 0 3.0 6 2 4 0 0 1/1 4/3/6/9/12/",
        "line 2: bad DESC line",
    ),
    (
        "p.1.1",
        "B/%DESC 2 2 1 1 3 6 2 4 0 0 -/1 2/15/18/",
        "line 2: bad DESC line",
    ),
    (
        "p.0.0",
        "B/%DESC 2147483648 2 0 0 3 6 2 4 0 0 2/",
        "line 2: bad DESC line",
    ),
    (
        "p.1.0",
        "B/%DESC 2 2 1 0 -2147483649 6 2 4 0 0 1/1 4/3/6/9/12/",
        "line 2: bad DESC line",
    ),
    (
        "p.1.1",
        "B/%DESC 2 2 1 1 3 6 2 4 0 0 9999999999/1 2/15/18/",
        "line 2: bad DESC line",
    ),
    (
        "p.0.0",
        "B/%DESC 2 2 0 0 3 6 2 4 0 0/2 4/1/2/4/5/7/8/10/11/",
        "line 2: bad DESC line",
    ),
    (
        "p.1.1",
        "B/%DESC 2 2 1 1 3 6 2 4 0 0 1 1/1 2/15/18/",
        "line 2: bad DESC line",
    ),
    (
        "p.0.0",
        "B/%DESC 0 2 0 0 3 6 2 4 0 0 2/",
        "line 2: bad DESC line",
    ),
    (
        "p.0.0",
        "B/%DESC 65 1 0 0 3 6 2 4 0 0 2/",
        "line 2: bad DESC line",
    ),
    (
        "p.0.0",
        "B/%DESC 13 5 0 0 3 6 2 4 0 0 2/",
        "line 2: bad DESC line",
    ),
    (
        "p.0.1",
        "B/%DESC 2 2 0 2 3 6 2 4 0 0 2/2 2/13/14/16/17/",
        "line 2: bad DESC line",
    ),
    (
        "p.1.0",
        "B/%DESC 2 2 -1 0 3 6 2 4 0 0 1/1 4/3/6/9/12/",
        "line 2: bad DESC line",
    ),
    (
        "p.1.1",
        "B/%DESC 3 3 3 1 3 6 2 4 0 0 1/1 2/15/18/",
        "line 2: bad DESC line",
    ),
    (
        "p.0.1",
        "B/%DESC 3 2 0 1 3 6 2 4 0 0 2/2 2/13/14/16/17/",
        "line 2: disagrees with the first piece",
    ),
    (
        "p.0.1",
        "B/%DESC 2 3 0 1 3 6 2 4 0 0 2/2 2/13/14/16/17/",
        "line 2: disagrees with the first piece",
    ),
    (
        "p.1.0",
        "B/%DESC 2 2 1 0 4 6 2 4 0 0 2/2 4/",
        "line 2: disagrees with the first piece",
    ),
    (
        "p.1.0",
        "B/%DESC 2 2 1 0 3 7 2 4 0 0 1/1 4/3/6/9/12/",
        "line 2: disagrees with the first piece",
    ),
    (
        "p.1.0",
        "B/%DESC 2 2 1 0 3 6 3 4 0 0 1/1 4/3/6/9/12/",
        "line 2: disagrees with the first piece",
    ),
    (
        "p.1.1",
        "B/%DESC 2 2 1 1 3 6 2 5 0 0 1/1 2/15/18/",
        "line 2: disagrees with the first piece",
    ),
    (
        "p.1.1",
        "B/%DESC 2 2 1 1 3 6 2 4 1 0 1/1 2/15/18/",
        "line 2: disagrees with the first piece",
    ),
    (
        "p.1.1",
        "B/%DESC 2 2 1 1 3 6 2 4 0 1 1/1 2/15/18/",
        "line 2: disagrees with the first piece",
    ),
    (
        "p.1.1",
        "B/%DESC 2 2 0 0 -3 6 2 4 0 0 0/1 2/15/18/",
        "line 2: disagrees with the first piece",
    ),
    (
        "p.0.0",
        "B/%DESC 2 2 0 0 -1 -1 0 0 2 2 0/",
        "line 2: INFO -2",
    ),
    (
        "p.0.0",
        "B/%DESC 2 2 0 0 3 16777217 0 0 2 2 0/",
        "line 2: INFO -3",
    ),
    ("p.0.0", "B/%DESC 2 2 0 0 3 6 0 0 2 2 0/", "line 2: INFO -4"),
    (
        "p.0.0",
        "B/%DESC 2 2 0 0 3 6 2 16777217 2 2 0/",
        "line 2: INFO -5",
    ),
    ("p.0.0", "B/%DESC 2 2 0 0 3 6 2 4 2 2 0/", "line 2: INFO -6"),
    (
        "p.0.0",
        "B/%DESC 2 2 0 0 3 6 2 4 1 -1 0/",
        "line 2: INFO -7",
    ),
    ("p.0.0", "B/%DESC 2 2 0 0 3 6 2 4 0 0 1/", "line 2: INFO -9"),
    (
        "p.0.1",
        "B/%DESC 2 2 0 1 3 6 2 4 0 0 16777217/",
        "line 2: INFO -9",
    ),
    ("p.1.0", "B/%DESC 2 2 0 0 3 6 2 4 0 0 1/", "line 2: INFO -9"),
    (
        "p.1.1",
        "B/%DESC 2 2 1 1 3 6 2 4 0 0 0/1 2/15/18/",
        "line 2: INFO -9",
    ),
    (
        "p.0.0",
        "B/%DESC 2 2 1 1 3 6 2 4 0 0 1/1 2/15/18/",
        "line 2: wrong place",
    ),
    (
        "p.0.1",
        "B/%DESC 2 2 1 0 3 6 2 4 0 0 1/1 4/3/6/9/12/",
        "line 2: wrong place",
    ),
    (
        "p.1.0",
        "B/%DESC 2 2 0 0 3 6 2 4 0 0 2/2 4/1/2/4/5/7/8/10/11/",
        "line 2: wrong place",
    ),
    (
        "p.1.1",
        "B/%DESC 2 2 1 0 3 6 2 4 0 0 1/1 4/3/6/9/12/",
        "line 2: wrong place",
    ),
    (
        "p.0.0",
        "B/%DESC 2 2 0 0 3 6 2 4 0 0 2/2 x/",
        "line 3: bad size line",
    ),
    (
        "p.0.1",
        "B/%DESC 2 2 0 1 3 6 2 4 0 0 2/%/8192 8193/",
        "line 4: bad size line",
    ),
    (
        "p.1.1",
        "B/%DESC 2 2 1 1 3 6 2 4 0 0 1/",
        "line 3: bad size line",
    ),
    (
        "p.0.0",
        "B/%DESC 2 2 0 0 3 6 2 4 0 0 2/3 4/1/2/4/5/7/8/10/11/",
        "line 3: size is 3 4, want 2 4",
    ),
    (
        "p.0.1",
        "B/%DESC 2 2 0 1 3 6 2 4 0 0 2//%/2 3/13/14/16/17/",
        "line 5: size is 2 3, want 2 2",
    ),
    (
        "p.1.1",
        "B/%DESC 2 2 1 1 3 6 2 4 0 0 1/0 2/",
        "line 3: size is 0 2, want 1 2",
    ),
    (
        "p.0.1",
        "B/%DESC 2 2 0 1 3 6 2 4 0 0 16777216/16777216 4/",
        "line 3: size is 16777216 4, want 16777216 2",
    ),
    (
        "p.1.0",
        "B/%DESC 2 2 1 0 3 6 2 4 0 0 16777216/16777216 4/",
        "line 3: too many words: 67108876",
    ),
    (
        "p.1.0",
        "B/%DESC 2 2 1 0 3 6 2 4 0 0 16777214/%/16777214 4/3/",
        "line 4: too many words: 67108868",
    ),
    (
        "p.0.0",
        "B/%DESC 2 2 0 0 3 6 2 4 0 0 2/2 4/x/2/4/5/7/8/10/11/",
        "line 4: bad value",
    ),
    (
        "p.1.0",
        "B/%DESC 2 2 1 0 3 6 2 4 0 0 1/1 4/3/6/%/9/12/",
        "line 6: bad value",
    ),
    (
        "p.1.1",
        "B/%DESC 2 2 1 1 3 6 2 4 0 0 1/1 2/15/18 18/",
        "line 5: bad value",
    ),
    (
        "p.0.0",
        "B/%DESC 2 2 0 0 3 6 2 4 0 0 2/2 4/2147483648/2/4/5/7/8/10/11/",
        "line 4: value out of range",
    ),
    (
        "p.0.1",
        "B/%DESC 2 2 0 1 3 6 2 4 0 0 2/2 2/13/-2147483649/16/17/",
        "line 5: value out of range",
    ),
    (
        "p.1.1",
        "B/%DESC 2 2 1 1 3 6 2 4 0 0 1/1 2/15/99999999999/",
        "line 5: value out of range",
    ),
    (
        "p.0.0",
        "B/%DESC 2 2 0 0 3 6 2 4 0 0 2/2 4/",
        "line 4: too few values, have 0 want 8",
    ),
    (
        "p.0.1",
        "B/%DESC 2 2 0 1 3 6 2 4 0 0 2/2 2/13/14/",
        "line 6: too few values, have 2 want 4",
    ),
    (
        "p.1.1",
        "B/%DESC 2 2 1 1 3 6 2 4 0 0 1/1 2/15//",
        "line 6: too few values, have 1 want 2",
    ),
    (
        "p.0.0",
        "B/%DESC 2 2 0 0 3 6 2 4 0 0 2/2 4/1/2/4/5/7/8/10/11/13/",
        "line 12: too many values, want 8",
    ),
    (
        "p.1.0",
        "B/%DESC 2 2 1 0 3 6 2 4 0 0 1/1 4/3/6/9/12//%/",
        "line 9: too many values, want 4",
    ),
    (
        "p.1.1",
        "B/%DESC 2 2 1 1 3 6 2 4 0 0 1/1 2/15/18/x",
        "line 6: too many values, want 2",
    ),
    (
        "p.0.1",
        "B/%DESC 2 2 0 1 3 6 2 4 0 0 2/2\u{b}2/13/14/16/17/",
        "line 3: byte that is not text",
    ),
    (
        "p.0.1",
        "B/%DESC 2 2 0 1 3 6 2 4 0 0 2/2 2/13/%\u{1}/16/17/",
        "line 5: byte that is not text",
    ),
    ("p.0.0", "B/%\0/", "line 2: byte that is not text"),
    ("p.0.0", "B/%_/", "line 2: line too long"),
];

#[test]
fn pieces(rt: HostRuntime) -> Result<(), Fail> {
    let alloc = rt.alloc();
    for (name, short, fault) in &BAD_PIECES {
        for words in ["join p o", "move p o 1 1 4 4", "move p o 2 2 1 1 --seed 3"] {
            let refused = is_refused(alloc, &PIECES, (*name, *short), words, *fault)?;
            assert!(rt; refused, "{words}: {short}");
        }
    }
    Ok(())
}
