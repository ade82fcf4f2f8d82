//! One program, run twice.
use crate::gallery::{SAVED, Text, stocked};
use file_tools::{Status, plain_tool};
use rank_runner::OpenGate;
use std::alloc::{AllocError, Global};
use std::sync::Wait;
use std::thread::Threads;
use store_io::{MemSink, MemStore};
use tool_threads::gridtool;

/// What a run leaves.
#[derive(Drop)]
struct Left {
    status: Status,
    store: MemStore,
    out: MemSink,
}

// The words of a run.
fn words_of(alloc: Global, words: &[&str]) -> Result<Vec<String>, AllocError> {
    let mut all = Vec::new(alloc);
    for word in words {
        all.push(String::from_str(alloc, word)?)?;
    }
    Ok(all)
}

// What the run in the plan's own order leaves.
fn in_order(alloc: Global, texts: &[Text], program: &str) -> Result<Left, AllocError> {
    let words = words_of(alloc, &["run", program])?;
    let mut store = stocked(alloc, texts)?;
    let mut out = MemSink::new(alloc, 16384)?;
    let mut err = MemSink::new(alloc, 256)?;
    let status = plain_tool(alloc, &words, &mut store, &mut out, &mut err);
    Ok(Left { status, store, out })
}

// What the run with a thread for each rank leaves.
fn on_threads<R: Threads + Wait + Sync>(
    rt: &R,
    alloc: Global,
    texts: &[Text],
    program: &str,
) -> Result<Left, AllocError> {
    let words = words_of(alloc, &["run", program, "--threads"])?;
    let mut store = stocked(alloc, texts)?;
    let mut out = MemSink::new(alloc, 16384)?;
    let mut err = MemSink::new(alloc, 256)?;
    let status = gridtool(rt, alloc, &words, &mut store, &mut out, &mut err, &OpenGate);
    Ok(Left { status, store, out })
}

// Whether both runs did the whole program, and left the same output and files.
fn are_same(one: &Left, other: &Left) -> bool {
    if one.status != Status::Done || other.status != Status::Done {
        return false;
    }
    for name in SAVED {
        if one.store.file(name) != other.store.file(name) {
            return false;
        }
    }
    one.out.bytes() == other.out.bytes()
}

/// Whether a program leaves the same with a thread for each rank as in its plan's own order.
pub fn agrees<R: Threads + Wait + Sync>(
    rt: &R,
    alloc: Global,
    texts: &[Text],
    program: &str,
) -> Result<bool, AllocError> {
    let one = in_order(alloc, texts, program)?;
    let other = on_threads(rt, alloc, texts, program)?;
    Ok(are_same(&one, &other))
}
