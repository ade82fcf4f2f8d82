//! The programs of docs/PROGRAMS.md, word for word as in examples/programs.
use crate::reading::{ends_with, lines_of};
use std::test::Fail;

const FIRST: &str = "# process (0, 0) sends a number, process (0, 1) receives it
RANKS 2
GRID w R 1 2
MATRIX v 1 1
FILL v 7 0 0 1
SEND w 0 0 v 1 1 1 1 0 1
RECV w 0 1 v 1 1 1 1 0 0
PRINT v 1
";

const SPREAD: &str = "# a matrix from a file, moved from 2 by 2 blocks to 3 by 1 blocks
RANKS 6
GRID g C 2 3
GRID h R 6 1
ARRAY a g 7 5 2 2 0 0
ARRAY b h 7 5 3 1 0 0 9
LOAD a m.mtx
FILL b 0 0 0 -1
GEMR2D 7 5 a 1 1 b 1 1 g
SAVE b n.mtx
SAVE b n PIECES
PRINT a
";

const MAPS: &str = "# two grids of one process each, and a grid of both for the move
RANKS 2
MAP g 1 1 0
MAP h 1 1 1
GRID w R 1 2
ARRAY a g 2 2 2 2 0 0
ARRAY b h 2 2 2 2 0 0 5
FILL a 1 1 10 0
FILL b 0 0 0 7
GEMR2D 2 2 a 1 1 b 1 1 w
SAVE b t PIECES
PRINT b
";

const SCOPES: &str = "# broadcasts and combines in a grid, a row of it and a column of it
RANKS 6
GRID g R 2 3
MATRIX v 2 2
MATRIX rows 2 2
MATRIX columns 2 2
FILL v -5 1 2 10
BARRIER g A
BCAST g A - 0 0 v 1 1 2 2
BCAST g R0 I 0 1 v 1 1 1 2
SUM g C1 3 1 1 v 1 1 2 2
AMX g A T -1 0 v 1 1 2 2 rows columns
AMN g R1 S 1 0 v 1 1 2 2
PRINT v 5
";

const TRIANGLES: &str = "# parts with only one triangle
RANKS 2
GRID w R 1 2
MATRIX v 3 3
ARRAY a w 3 2 3 1 0 0
ARRAY b w 3 2 3 1 0 0
FILL v 1 1 10 0
FILL a 1 1 10 0
SEND w 0 0 v 1 1 3 3 0 1 U N
RECV w 0 1 v 1 1 3 3 0 0 U N
BCAST w A H 0 0 v 1 1 2 3 L U
TRMR2D U N 3 2 a 1 1 b 1 1 w
PRINT v 1
PRINT b
";

#[test]
fn the_programs_of_the_page_are_read(rt: HostRuntime) -> Result<(), Fail> {
    let alloc = rt.alloc();
    let rows = [
        (FIRST, 7, "8 PrintMatrix { array: 0, rank: 1 }"),
        (SPREAD, 11, "12 PrintArray { array: 0 }"),
        (MAPS, 11, "12 PrintArray { array: 1 }"),
        (SCOPES, 13, "14 PrintMatrix { array: 0, rank: 5 }"),
        (TRIANGLES, 13, "14 PrintArray { array: 2 }"),
    ];
    for (text, count, last) in rows {
        assert_eq!(rt; lines_of(alloc, text.as_bytes()), Some(count));
        assert!(rt; ends_with(alloc, text.as_bytes(), last)?, "{last}");
    }
    Ok(())
}
