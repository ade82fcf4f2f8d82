//! Programs that are refused: a check and a run tell the same.
use crate::running::refuses;
use std::test::Fail;

// Texts that are no programs.
static TEXTS: [(&str, &str); 9] = [
    ("", "line 1: line out of order"),
    ("RANKS 2/RANK 2/", "line 2: unknown word"),
    ("RANKS 2/\u{80}/", "line 2: byte that is not text"),
    ("RANKS 2/GRID w R 1/", "line 2: wrong number of words"),
    ("RANKS 2/GRID w R -1 2/", "line 2: bad number"),
    ("RANKS 2/GRID 2 R 1 2/", "line 2: bad name"),
    (
        "RANKS 2/GRID w R 1 2/MATRIX w 1 1/",
        "line 3: name given twice",
    ),
    ("RANKS 65/", "line 1: limit passed"),
    // a fault of the text comes before one of its lines
    ("RANKS 2/GRID w R 2 2/X/", "line 3: unknown word"),
];

// Grids and arrays that can't be declared.
static DECLARATIONS: [(&str, &str); 8] = [
    ("RANKS 2/GRID w R 2 2/", "line 2: grid needs 4 ranks of 2"),
    ("RANKS 2/GRID w R 0 2/", "line 2: bad grid shape 0 2"),
    ("RANKS 2/MAP w 1 2 0 2/", "line 2: no process 2"),
    ("RANKS 2/MAP w 1 2 1 1/", "line 2: process 1 named twice"),
    (
        "RANKS 1/GRID w R 1 1/ARRAY a w 3 2 3 2 0 0/ARRAY b w 3 2 3 0 0 0/",
        "line 4: INFO -5",
    ),
    // rows of the first process, which has two of three
    (
        "RANKS 2/GRID w R 2 1/ARRAY a w 3 2 2 2 0 0 1/",
        "line 3: INFO -9",
    ),
    (
        "RANKS 2/MATRIX v 8192 4097/",
        "line 2: too many words: 67125248",
    ),
    (
        "RANKS 1/GRID w R 1 1/ARRAY a w 8192 8193 1 1 0 0/",
        "line 3: too many words: 67117056",
    ),
];

// Messages, broadcasts, combines and moves that their calls refuse.
static EXCHANGES: [(&str, &str); 12] = [
    // the move's common grid has to have the processes of both
    (
        "RANKS 2/MAP g 1 1 0/MAP h 1 1 1/GRID w R 1 2/ARRAY a g 2 2 2 2 0 0/ARRAY b h 2 2 2 2 0 0 5/FILL a 1 1 10 0/FILL b 0 0 0 7/GEMR2D 2 2 a 1 1 b 1 1 g/SAVE b s/",
        "line 9: INFO -11",
    ),
    (
        "RANKS 1/GRID w R 1 1/ARRAY a w 3 2 3 2 0 0/ARRAY b w 3 2 3 2 0 0/FILL a 1 1 10 0/TRMR2D X N 3 2 a 1 1 b 1 1 w/",
        "line 6: INFO -1",
    ),
    (
        "RANKS 1/GRID w R 1 1/ARRAY a w 3 2 3 2 0 0/ARRAY b w 3 2 3 2 0 0/FILL a 1 1 10 0/GEMR2D 3 2 a 1 1 a 1 1 w/",
        "line 6: the same array twice",
    ),
    (
        "RANKS 2/GRID w R 1 2/MATRIX v 2 3/RECV w 0 1 v 1 1 2 3 0 0/SEND w 0 0 v 1 1 2 3 0 1/",
        "line 4: no message from 0 to 1",
    ),
    (
        "RANKS 2/GRID w R 1 2/MATRIX v 2 3/SEND w 0 0 v 1 1 2 3 0 1/RECV w 0 1 v 1 1 2 2 0 0/",
        "line 5: message has 6 words, want 4",
    ),
    (
        "RANKS 2/GRID w R 1 2/MATRIX v 1 1/SEND w 0 0 v 1 1 1 1 0 2/",
        "line 4: no such place in the grid",
    ),
    (
        "RANKS 1/GRID w R 1 1/MATRIX v 2 2/MATRIX u 2 2/AMX w A H 0 0 v 1 1 2 2 u u/",
        "line 5: the same array twice",
    ),
    (
        "RANKS 1/GRID w R 1 1/MATRIX v 2 2/MATRIX r 1 2/MATRIX c 2 2/AMX w A H 0 0 v 1 1 2 2 r c/",
        "line 6: leading dimension 1 less than 2",
    ),
    (
        "RANKS 1/GRID w R 1 1/MATRIX v 2 2/BCAST w A H 0 0 v 2 1 2 2/",
        "line 4: region outside the array",
    ),
    // one word more than a job may have, of a message
    (
        "RANKS 1/GRID w R 1 1/MATRIX v 8192 4096/SEND w 0 0 v 1 1 8192 4096 0 0/SEND w 0 0 v 1 1 1 1 0 0/",
        "line 5: too many words: 67108865",
    ),
    // results aren't written before a refused exchange is found
    (
        "RANKS 2/GRID w R 1 2/ARRAY a w 2 2 1 1 0 0/MATRIX v 1 1/RECV w 0 1 v 1 1 1 1 0 0/SAVE a s/PRINT a/",
        "line 5: no message from 0 to 1",
    ),
    // the first refused line counts, and no later one
    (
        "RANKS 2/GRID w R 1 2/MATRIX v 1 1/RECV w 0 1 v 1 1 1 1 0 0/BCAST w R7 H 0 0 v 1 1 1 1/",
        "line 4: no message from 0 to 1",
    ),
];

// Lines that a message holds up which waits between two of their ranks.
static WAITING: [(&str, &str); 8] = [
    (
        "RANKS 2/GRID w R 1 2/MATRIX v 1 1/SEND w 0 0 v 1 1 1 1 0 1/BARRIER w A/",
        "line 5: message from 0 to 1 still waits",
    ),
    (
        "RANKS 2/GRID w R 1 2/MATRIX v 1 1/SEND w 0 1 v 1 1 1 1 0 0/BCAST w A H 0 0 v 1 1 1 1/",
        "line 5: message from 1 to 0 still waits",
    ),
    (
        "RANKS 2/GRID w R 1 2/MATRIX v 1 1/SEND w 0 0 v 1 1 1 1 0 1/SUM w R0 H 0 0 v 1 1 1 1/",
        "line 5: message from 0 to 1 still waits",
    ),
    (
        "RANKS 2/GRID w R 1 2/MATRIX v 1 1/SEND w 0 0 v 1 1 1 1 0 1/AMX w A H -1 0 v 1 1 1 1/",
        "line 5: message from 0 to 1 still waits",
    ),
    (
        "RANKS 2/GRID w R 1 2/MATRIX v 1 1/SEND w 0 1 v 1 1 1 1 0 0/AMN w A H -1 0 v 1 1 1 1/",
        "line 5: message from 1 to 0 still waits",
    ),
    (
        "RANKS 2/GRID w R 1 2/ARRAY a w 1 2 1 1 0 0/ARRAY b w 1 2 1 1 0 0/SEND w 0 1 a 1 1 1 1 0 0/GEMR2D 1 2 a 1 1 b 1 1 w/",
        "line 6: message from 1 to 0 still waits",
    ),
    (
        "RANKS 2/GRID w R 1 2/ARRAY a w 1 2 1 1 0 0/ARRAY b w 1 2 1 1 0 0/SEND w 0 0 a 1 1 1 1 0 1/TRMR2D U N 1 2 a 1 1 b 1 1 w/",
        "line 6: message from 0 to 1 still waits",
    ),
    // a message of a rank to itself holds up a move
    (
        "RANKS 1/GRID w R 1 1/ARRAY a w 1 1 1 1 0 0/ARRAY b w 1 1 1 1 0 0/SEND w 0 0 a 1 1 1 1 0 0/GEMR2D 1 1 a 1 1 b 1 1 w/",
        "line 6: message from 0 to 0 still waits",
    ),
];

#[test]
fn lines_that_are_refused(rt: HostRuntime) -> Result<(), Fail> {
    let alloc = rt.alloc();
    refuses(&rt, alloc, &TEXTS)?;
    refuses(&rt, alloc, &DECLARATIONS)?;
    refuses(&rt, alloc, &EXCHANGES)?;
    refuses(&rt, alloc, &WAITING)
}
