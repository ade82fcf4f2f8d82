//! What a check tells.
use crate::running::writes;
use std::test::Fail;

// Programs, and their ranks, operations, messages and words.
static NUMBERS: [(&str, &str); 12] = [
    (
        "RANKS 2/GRID w R 1 2/MATRIX v 1 1/MATRIX r 1 1/MATRIX c 1 1/FILL v -5 0 0 10/AMX w A H -1 0 v 1 1 1 1 r c/",
        "ranks 2/operations 8/messages 2/words 10/",
    ),
    (
        "RANKS 5/GRID w R 1 5/MATRIX v 1 1/FILL v 0 0 0 1/BCAST w A I 0 3 v 1 1 1 1/PRINT v 4/",
        "ranks 5/operations 8/messages 4/words 9/",
    ),
    // a message that is left
    (
        "RANKS 2/GRID w R 1 2/MATRIX v 1 1/SEND w 0 0 v 1 1 1 1 0 1/",
        "ranks 2/operations 1/messages 1/words 3/",
    ),
    // messages of no words
    (
        "RANKS 2/GRID w R 1 2/BARRIER w A/",
        "ranks 2/operations 4/messages 2/words 0/",
    ),
    // one member, and a trapezoid of no element: no operation
    (
        "RANKS 2/GRID w R 1 2/MATRIX v 1 1/BCAST w C1 H 0 1 v 1 1 1 1/",
        "ranks 2/operations 0/messages 0/words 2/",
    ),
    (
        "RANKS 1/GRID w R 1 1/ARRAY a w 1 1 1 1 0 0/ARRAY b w 1 1 1 1 0 0/TRMR2D U U 1 1 a 1 1 b 1 1 w/",
        "ranks 1/operations 0/messages 0/words 2/",
    ),
    // a sum to one and to all of 64, in that order
    (
        "RANKS 64/GRID w R 8 8/MATRIX v 1 1/SUM w A 1 0 0 v 1 1 1 1/",
        "ranks 64/operations 191/messages 63/words 127/",
    ),
    (
        "RANKS 64/GRID w R 8 8/MATRIX v 1 1/SUM w A H -1 0 v 1 1 1 1/",
        "ranks 64/operations 380/messages 126/words 190/",
    ),
    // a file that is loaded is neither read nor missed
    (
        "RANKS 1/GRID w R 1 1/ARRAY a w 2 2 1 1 0 0/LOAD a nowhere.mtx/SAVE a s.mtx/",
        "ranks 1/operations 0/messages 0/words 4/",
    ),
    // as many words as a job may have: in an array, on all ranks, and with a message
    (
        "RANKS 1/GRID w R 1 1/ARRAY a w 8192 8192 1 1 0 0/",
        "ranks 1/operations 0/messages 0/words 67108864/",
    ),
    (
        "RANKS 2/MATRIX v 8192 4096/",
        "ranks 2/operations 0/messages 0/words 67108864/",
    ),
    (
        "RANKS 1/GRID w R 1 1/MATRIX v 8192 4096/SEND w 0 0 v 1 1 8192 4096 0 0/",
        "ranks 1/operations 1/messages 1/words 67108864/",
    ),
];

#[test]
fn numbers_of_programs(rt: HostRuntime) -> Result<(), Fail> {
    writes(&rt, rt.alloc(), "check p.txt", &NUMBERS)
}
