//! Files that programs load and save.
use crate::running::{has, run, store_of};
use file_tools::Status;
use std::alloc::{AllocError, Global};
use std::process::Abort;
use std::test::Fail;

const MOVED: &str =
    "RANKS 2/MAP g 1 1 0/MAP h 1 1 1/GRID w R 1 2/ARRAY a g 2 2 2 2 0 0/ARRAY b h 2 2 2 2 0 0 5/FILL a 1 1 10 0/FILL b 0 0 0 7/GEMR2D 2 2 a 1 1 b 1 1 w/SAVE b t PIECES/PRINT b/";

const PIECE: &str =
    "%%MatrixMarket matrix array integer general/%DESC 1 1 0 0 2 2 2 2 0 0 5/5 2/1/2/7/7/7/11/12/7/7/7/";

const SMALL: &str = "%%MatrixMarket matrix array integer general/2 2/1/2/3/4/";

// In order, drawn by seeds, and in threads.
static ORDERS: [&str; 12] = [
    "run p.txt",
    "run --threads p.txt",
    "run p.txt --seed 0",
    "run p.txt --seed 1",
    "run p.txt --seed=2",
    "run p.txt --seed 3",
    "run p.txt --seed 4",
    "run p.txt --seed 5",
    "run p.txt --seed 6",
    "run p.txt --seed 7",
    "run p.txt --seed 8",
    "run --seed 9 p.txt",
];

// The same piece and the same output in each order.
fn run_alike(rt: &impl Abort, alloc: Global, lines: &[&str]) -> Result<(), Fail> {
    for line in lines {
        let mut store = store_of(alloc, MOVED, "")?;
        let ended = run(alloc, &mut store, *line)?;
        let good = ended.is(alloc, Status::Done, "b 2 2/1 11/2 12/", "")?;
        assert!(rt; good && has(alloc, &store, "t.0.0", PIECE)?, "{line}");
    }
    Ok(())
}

// Programs beside a small matrix file, and what they leave as `t.0.0`.
static SAVED: [(&str, &str); 7] = [
    // what is loaded leaves the padding as it was
    (
        "RANKS 1/GRID w R 1 1/ARRAY a w 2 2 2 2 0 0 4/FILL a 9 9 9 7/LOAD a m.mtx/SAVE a t PIECES/",
        "%%MatrixMarket matrix array integer general/%DESC 1 1 0 0 2 2 2 2 0 0 4/4 2/1/2/7/7/3/4/7/7/",
    ),
    (
        "RANKS 1/GRID w R 1 1/ARRAY a w 2 2 2 2 0 0 3/LOAD a m.mtx/SAVE a t PIECES/",
        "%%MatrixMarket matrix array integer general/%DESC 1 1 0 0 2 2 2 2 0 0 3/3 2/1/2/0/3/4/0/",
    ),
    (
        "RANKS 2/GRID w R 1 2/ARRAY a w 2 2 1 1 0 1 3/FILL a 0 0 0 7/LOAD a m.mtx/SAVE a t PIECES/",
        "%%MatrixMarket matrix array integer general/%DESC 1 2 0 0 2 2 1 1 0 1 3/3 1/3/4/7/",
    ),
    // FILL sets the padding, too
    (
        "RANKS 2/GRID w R 2 1/ARRAY a w 3 2 1 2 0 0 3/FILL a 1 1 10 7/SAVE a t PIECES/",
        "%%MatrixMarket matrix array integer general/%DESC 2 1 0 0 3 2 1 2 0 0 3/3 2/1/3/7/11/13/7/",
    ),
    // FILL and LOAD in the order of their lines
    (
        "RANKS 1/GRID w R 1 1/ARRAY a w 2 2 1 1 0 0/LOAD a m.mtx/FILL a 1 2 3 4/SAVE a t.0.0/",
        "%%MatrixMarket matrix array integer general/2 2/1/3/4/6/",
    ),
    (
        "RANKS 4/GRID w R 2 2/ARRAY a w 2 2 1 1 1 1/LOAD a m.mtx/SAVE a t.0.0/",
        "%%MatrixMarket matrix array integer general/2 2/1/2/3/4/",
    ),
    // the later of two files of one name stays
    (
        "RANKS 1/GRID w R 1 1/ARRAY a w 1 1 1 1 0 0/ARRAY b w 2 2 1 1 0 0/FILL b 1 1 2 0/SAVE a t.0.0/SAVE b t.0.0/",
        "%%MatrixMarket matrix array integer general/2 2/1/2/3/4/",
    ),
];

fn saves(rt: &impl Abort, alloc: Global, rows: &[(&str, &str)]) -> Result<(), Fail> {
    for (program, saved) in rows {
        let mut store = store_of(alloc, *program, SMALL)?;
        let ended = run(alloc, &mut store, "run p.txt")?;
        let good = ended.is(alloc, Status::Done, "", "")?;
        assert!(rt; good && has(alloc, &store, "t.0.0", *saved)?, "{program}");
    }
    Ok(())
}

const LOADS: &str =
    "RANKS 2/GRID w R 1 1/ARRAY a w 2 2 1 1 0 0/LOAD a m.mtx/SAVE a m.mtx/SAVE a p.txt/PRINT a/";

// Files that can't be loaded, and the line beside each; no text: there is no file.
static UNREAD: [(&str, &str); 3] = [
    (
        "%%MatrixMarket matrix array integer general/2 1/1/2/",
        "gridtool: p.txt: line 4: file is 2 1, array is 2 2/",
    ),
    (
        "%%MatrixMarket matrix array integer general/2 2/1/2/",
        "gridtool: m.mtx: line 5: too few values, have 2 want 4/",
    ),
    ("", "gridtool: m.mtx: missing/"),
];

// A file that isn't there is the store's trouble.
fn status_of(file: &str) -> Status {
    if file.is_empty() {
        Status::Store
    } else {
        Status::Refused
    }
}

// Such a file is told, and nothing is saved.
fn loads_nothing(rt: &impl Abort, alloc: Global, rows: &[(&str, &str)]) -> Result<(), Fail> {
    for (file, error) in rows {
        let mut store = store_of(alloc, LOADS, *file)?;
        let status = status_of(*file);
        let ended = run(alloc, &mut store, "run p.txt")?;
        let good = ended.is(alloc, status, "", *error)?;
        assert!(rt; good && has(alloc, &store, "p.txt", LOADS)?, "{error}");
    }
    Ok(())
}

// Whether files that were read are saved over, and then the program isn't there under another name.
fn saves_over(alloc: Global) -> Result<bool, AllocError> {
    let mut store = store_of(alloc, LOADS, SMALL)?;
    let ended = run(alloc, &mut store, "run p.txt")?;
    let good = ended.is(alloc, Status::Done, "a 2 2/1 3/2 4/", "")?
        && has(alloc, &store, "m.mtx", SMALL)?
        && has(alloc, &store, "p.txt", SMALL)?;
    let ended = run(alloc, &mut store, "run q.txt")?;
    Ok(good && ended.is(alloc, Status::Store, "", "gridtool: q.txt: missing/")?)
}

#[test]
fn files_that_are_saved(rt: HostRuntime) -> Result<(), Fail> {
    let alloc = rt.alloc();
    run_alike(&rt, alloc, &ORDERS)?;
    saves(&rt, alloc, &SAVED)
}

#[test]
fn files_that_are_loaded(rt: HostRuntime) -> Result<(), Fail> {
    let alloc = rt.alloc();
    loads_nothing(&rt, alloc, &UNREAD)?;
    assert!(rt; saves_over(alloc)?);
    Ok(())
}
