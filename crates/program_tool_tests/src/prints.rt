//! What programs print.
use crate::running::writes;
use std::alloc::Global;
use std::process::Abort;
use std::test::Fail;

// Moves between grids without a common process, and of trapezoids; prints of arrays over several ranks.
static ARRAYS: [(&str, &str); 6] = [
    (
        "RANKS 2/MAP g 1 1 0/MAP h 1 1 1/GRID w R 1 2/ARRAY a g 2 2 2 2 0 0/ARRAY b h 2 2 2 2 0 0 5/FILL a 1 1 10 0/FILL b 0 0 0 7/GEMR2D 2 2 a 1 1 b 1 1 w/PRINT b/",
        "b 2 2/1 11/2 12/",
    ),
    (
        "RANKS 1/GRID w R 1 1/ARRAY a w 3 2 3 2 0 0/ARRAY b w 3 2 3 2 0 0/FILL a 1 1 10 0/TRMR2D U N 3 2 a 1 1 b 1 1 w/PRINT b/",
        "b 3 2/1 11/2 12/0 13/",
    ),
    (
        "RANKS 1/GRID w R 1 1/ARRAY a w 3 2 3 2 0 0/ARRAY b w 3 2 3 2 0 0/FILL a 1 1 10 0/TRMR2D U U 3 2 a 1 1 b 1 1 w/PRINT b/",
        "b 3 2/1 11/0 12/0 0/",
    ),
    (
        "RANKS 2/GRID w R 1 2/ARRAY a w 3 3 2 2 0 0/ARRAY b w 3 3 1 1 0 1/FILL a 1 1 10 0/TRMR2D L N 2 3 a 2 1 b 1 1 w/PRINT b/",
        "b 3 3/2 12 0/3 13 23/0 0 0/",
    ),
    // the padding isn't printed
    (
        "RANKS 4/GRID w R 2 2/ARRAY a w 3 3 1 1 1 0/FILL a 1 1 10 5/BARRIER w A/PRINT a/",
        "a 3 3/1 11 21/2 12 22/3 13 23/",
    ),
    // a matrix without columns has empty lines
    (
        "RANKS 1/GRID w R 1 1/ARRAY a w 2 0 1 1 0 0/PRINT a/",
        "a 2 0///",
    ),
];

// Messages, broadcasts and combines of matrices that every rank has.
static MATRICES: [(&str, &str); 8] = [
    // a sum modulo 2^32, on its destination alone
    (
        "RANKS 2/GRID w R 1 2/MATRIX v 1 1/FILL v 2147483647 0 0 -2147483646/SUM w A H 0 0 v 1 1 1 1/PRINT v 0/PRINT v 1/",
        "v rank 0 1 1/-2147483648/v rank 1 1 1/1/",
    ),
    // of two absolute values that are the same the first member's counts
    (
        "RANKS 2/GRID w R 1 2/MATRIX v 1 1/MATRIX r 1 1/MATRIX c 1 1/FILL v -5 0 0 10/AMX w A H -1 0 v 1 1 1 1 r c/PRINT v 0/PRINT v 1/PRINT r 1/PRINT c 1/",
        "v rank 0 1 1/-5/v rank 1 1 1/-5/r rank 1 1 1/0/c rank 1 1 1/0/",
    ),
    (
        "RANKS 2/GRID w R 1 2/MATRIX v 1 1/FILL v -5 0 0 10/AMN w A H -1 0 v 1 1 1 1/PRINT v 1/",
        "v rank 1 1 1/-5/",
    ),
    (
        "RANKS 2/GRID w R 1 2/MATRIX v 1 1/MATRIX r 1 1/MATRIX c 1 1/FILL v 3 0 0 -1/AMN w R0 1 0 1 v 1 1 1 1 r c/PRINT v 0/PRINT v 1/PRINT r 1/PRINT c 1/",
        "v rank 0 1 1/3/v rank 1 1 1/2/r rank 1 1 1/0/c rank 1 1 1/1/",
    ),
    // one member: nothing changes
    (
        "RANKS 1/GRID w R 1 1/MATRIX v 1 2/FILL v 4 0 5 0/BCAST w A T 0 0 v 1 1 1 2/PRINT v 0/",
        "v rank 0 1 2/4 9/",
    ),
    // a message that is left at the end
    (
        "RANKS 2/GRID w R 1 2/MATRIX v 1 1/SEND w 0 0 v 1 1 1 1 0 1/",
        "",
    ),
    (
        "RANKS 6/GRID w C 2 3/MATRIX v 2 2/FILL v 1 2 4 10/SEND w 1 0 v 1 1 2 2 0 2 U N/RECV w 0 2 v 1 1 2 2 1 0 L N/BARRIER w C1/PRINT v 1/PRINT v 4/",
        "v rank 1 2 2/11 15/13 17/v rank 4 2 2/11 45/15 17/",
    ),
    (
        "RANKS 4/GRID w R 2 2/MATRIX v 2 2/FILL v 0 1 2 10/BCAST w R1 S 1 0 v 1 1 2 2 L U/SUM w C0 2 -1 0 v 2 1 1 2/PRINT v 0/PRINT v 2/PRINT v 3/",
        "v rank 0 2 2/0 2/22 26/v rank 2 2 2/20 22/22 26/v rank 3 2 2/30 32/21 33/",
    ),
];

// All topologies.
static TOPOLOGIES: [&str; 17] = [
    "I", "D", "S", "M", "H", "-", "F", "T", "1", "2", "3", "4", "5", "6", "8", "9", "i",
];

// A broadcast gives every member the source's word along each of these topologies.
fn broadcasts(rt: &impl Abort, alloc: Global, tops: &[&str]) -> Result<(), Fail> {
    for top in tops {
        let program = format!(in alloc;
            "RANKS 5/GRID w R 1 5/MATRIX v 1 1/FILL v 0 0 0 1/BCAST w A {top} 0 3 v 1 1 1 1/PRINT v 4/"
        )?;
        let rows = [(program.as_str(), "v rank 4 1 1/3/")];
        writes(rt, alloc, "run p.txt", &rows)?;
    }
    Ok(())
}

#[test]
fn programs_print(rt: HostRuntime) -> Result<(), Fail> {
    let alloc = rt.alloc();
    writes(&rt, alloc, "run p.txt", &ARRAYS)?;
    writes(&rt, alloc, "run p.txt", &MATRICES)?;
    broadcasts(&rt, alloc, &TOPOLOGIES)
}
