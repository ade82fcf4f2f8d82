//! Stores and sinks that fail while a program is run.
use crate::running::{has, run, store_of, text};
use file_tools::{Status, plain_tool};
use std::alloc::{AllocError, Global};
use std::test::Fail;
use store_io::{CallKind, MemSink};
use tool_tests::running::{holds, words};

const ONE: &str = "%%MatrixMarket matrix array integer general/1 1/9/";

const SAVES: &str =
    "RANKS 1/GRID w R 1 1/ARRAY a w 1 1 1 1 0 0/FILL a 9 0 0 0/SAVE a f1/SAVE a f2/SAVE a f3/SAVE a f4/PRINT a/";

#[test]
fn a_write_that_fails_at_the_third_of_four_saves(rt: HostRuntime) -> Result<(), Fail> {
    let alloc = rt.alloc();
    let mut store = store_of(alloc, SAVES, "")?;
    assert!(rt; store.fail(CallKind::Write, "f3", 1));
    let ended = run(alloc, &mut store, "run p.txt")?;
    assert!(rt; ended.is(alloc, Status::Store, "", "gridtool: f3: store fault/")?);
    assert!(rt; has(alloc, &store, "f1", ONE)? && has(alloc, &store, "f2", ONE)?);
    assert!(rt; holds(&store, "f3", b"") && store.file("f4").is_none());
    Ok(())
}

const LOADS: &str = "RANKS 1/GRID w R 1 1/ARRAY a w 1 1 1 1 0 0/LOAD a m.mtx/PRINT a/SAVE a f1/";

// Whether an output that takes so many bytes ends the run with its fault, after the save.
fn fails_after(alloc: Global, room: usize) -> Result<bool, AllocError> {
    let mut store = store_of(alloc, LOADS, ONE)?;
    let mut out = MemSink::new(alloc, room)?;
    let mut err = MemSink::new(alloc, 256)?;
    let words = words(alloc, "run p.txt")?;
    let status = plain_tool(alloc, &words, &mut store, &mut out, &mut err);
    let whole = text(alloc, "a 1 1/9/")?;
    Ok(
        status == Status::Sink
            && has(alloc, &store, "f1", ONE)?
            && whole.as_bytes().starts_with(out.bytes())
            && err.bytes() == b"gridtool: output fault\n".as_slice(),
    )
}

#[test]
fn an_output_that_fails_after_the_saves(rt: HostRuntime) -> Result<(), Fail> {
    let alloc = rt.alloc();
    assert!(rt; fails_after(alloc, 0)?);
    assert!(rt; fails_after(alloc, 3)?);
    assert!(rt; fails_after(alloc, 6)?);
    Ok(())
}

// Whether the first read of this file ends the run with this line, and nothing is saved.
fn fails_at(alloc: Global, name: &str, error: &str) -> Result<bool, AllocError> {
    let mut store = store_of(alloc, LOADS, ONE)?;
    let due = store.fail(CallKind::Read, name, 1);
    let ended = run(alloc, &mut store, "run p.txt")?;
    Ok(due && ended.is(alloc, Status::Store, "", error)? && store.file("f1").is_none())
}

#[test]
fn a_read_that_fails(rt: HostRuntime) -> Result<(), Fail> {
    let alloc = rt.alloc();
    assert!(rt; fails_at(alloc, "p.txt", "gridtool: p.txt: store fault/")?);
    assert!(rt; fails_at(alloc, "m.mtx", "gridtool: m.mtx: store fault/")?);
    Ok(())
}
