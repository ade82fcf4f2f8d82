//! The numbers of programs that are accepted.
use crate::answers::numbers_of;
use grid_exec::Summary;
use std::test::Fail;

const FIRST: &str = "RANKS 2
GRID w R 1 2
MATRIX v 1 1
FILL v 7 0 0 1
SEND w 0 0 v 1 1 1 1 0 1
RECV w 0 1 v 1 1 1 1 0 0
PRINT v 1
";

const MAPS: &str = "RANKS 2
MAP g 1 1 0
MAP h 1 1 1
GRID w R 1 2
ARRAY a g 2 2 2 2 0 0
ARRAY b h 2 2 2 2 0 0 5
FILL a 1 1 10 0
GEMR2D 2 2 a 1 1 b 1 1 w
PRINT b
";

const SPREAD: &str = "RANKS 6
GRID g C 2 3
GRID h R 6 1
ARRAY a g 7 5 2 2 0 0
ARRAY b h 7 5 3 1 0 0 9
LOAD a m.mtx
";

#[test]
fn one_message(rt: HostRuntime) -> Result<(), Fail> {
    let wanted = Summary {
        ranks: 2,
        operations: 2,
        messages: 1,
        words: 3,
    };
    assert_eq!(rt; numbers_of(rt.alloc(), FIRST), Some(wanted));
    Ok(())
}

#[test]
fn a_move_between_two_grids(rt: HostRuntime) -> Result<(), Fail> {
    let wanted = Summary {
        ranks: 2,
        operations: 2,
        messages: 1,
        words: 18,
    };
    assert_eq!(rt; numbers_of(rt.alloc(), MAPS), Some(wanted));
    Ok(())
}

#[test]
fn arrays_of_six_ranks(rt: HostRuntime) -> Result<(), Fail> {
    let wanted = Summary {
        ranks: 6,
        operations: 0,
        messages: 0,
        words: 305,
    };
    assert_eq!(rt; numbers_of(rt.alloc(), SPREAD), Some(wanted));
    Ok(())
}
