//! What programs save and print once they were run, in order and by seeds.
use crate::running::{holds, printed, prints, small_store};
use grid_exec::Mode;
use std::test::Fail;

const FIRST: &str = "RANKS 2
GRID w R 1 2
MATRIX v 1 1
FILL v 7 0 0 1
SEND w 0 0 v 1 1 1 1 0 1
RECV w 0 1 v 1 1 1 1 0 0
PRINT v 1
";

const MOVED: &str = "RANKS 2
MAP g 1 1 0
MAP h 1 1 1
GRID w R 1 2
ARRAY a g 2 2 2 2 0 0
ARRAY b h 2 2 2 2 0 0 5
FILL a 1 1 10 0
FILL b 0 0 0 7
GEMR2D 2 2 a 1 1 b 1 1 w
SAVE b t PIECES
PRINT b
";

const PIECE: &str = "%%MatrixMarket matrix array integer general
%DESC 1 1 0 0 2 2 2 2 0 0 5
5 2
1
2
7
7
7
11
12
7
7
7
";

const GREATEST: &str = "RANKS 2
GRID w R 1 2
MATRIX v 1 1
FILL v -5 0 0 10
AMX w A H -1 0 v 1 1 1 1
PRINT v 1
";

const LOADED: &str = "RANKS 2
GRID g R 2 1
ARRAY a g 2 1 1 1 0 0
LOAD a m.mtx
SAVE a o.mtx
PRINT a
";

const COLUMN: &str = "%%MatrixMarket matrix array integer general
2 1
3
4
";

#[test]
fn programs_print(rt: HostRuntime) -> Result<(), Fail> {
    let alloc = rt.alloc();
    assert!(rt; prints(alloc, FIRST, Mode::InOrder, "v rank 1 1 1\n7\n"));
    assert!(rt; prints(alloc, FIRST, Mode::Seed(3), "v rank 1 1 1\n7\n"));
    assert!(rt; prints(alloc, MOVED, Mode::Seed(1), "b 2 2\n1 11\n2 12\n"));
    Ok(())
}

#[test]
fn the_greatest_is_told(rt: HostRuntime) -> Result<(), Fail> {
    let output = "v rank 1 1 1\n-5\n";
    assert!(rt; prints(rt.alloc(), GREATEST, Mode::InOrder, output));
    Ok(())
}

#[test]
fn pieces_are_saved(rt: HostRuntime) -> Result<(), Fail> {
    let alloc = rt.alloc();
    if let Some(mut store) = small_store(alloc) {
        let done = printed(alloc, MOVED, &mut store, Mode::InOrder).is_some();
        assert!(rt; done);
        assert!(rt; holds(&store, "t.0.0", PIECE));
    }
    Ok(())
}

#[test]
fn a_file_is_loaded_and_saved(rt: HostRuntime) -> Result<(), Fail> {
    let alloc = rt.alloc();
    if let Some(mut store) = small_store(alloc) {
        let put = store.put("m.mtx", COLUMN.as_bytes());
        assert!(rt; put);
        let done = printed(alloc, LOADED, &mut store, Mode::InOrder).is_some();
        assert!(rt; done);
        assert!(rt; holds(&store, "o.mtx", COLUMN));
    }
    Ok(())
}
