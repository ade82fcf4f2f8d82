//! Calls of the tool over files in memory.
use file_tools::Status;
use rank_runner::Gate;
use std::alloc::{AllocError, Global};
use std::sync::Wait;
use std::thread::Threads;
use store_io::{MemSink, MemStore};
use tool_tests::running::{holds, words};
use tool_threads::gridtool;

/// The row of a table: words, the files before the call, and what it leaves.
#[derive(Clone, Copy)]
pub struct Row {
    pub words: &'static str,
    pub before: [(&'static str, &'static str); 2],
    pub status: Status,
    pub out: &'static str,
    pub err: &'static str,
    pub after: [(&'static str, &'static str); 2],
}

// A store that holds these files.
fn store_of(alloc: Global, files: &[(&str, &str)]) -> Result<MemStore, AllocError> {
    let mut store = MemStore::new(alloc, 8192, 16)?;
    for (name, text) in files {
        let _held = store.put(name, text.as_bytes());
    }
    Ok(store)
}

// Whether a store holds these files.
fn holds_all(store: &MemStore, files: &[(&str, &str)]) -> bool {
    for (name, text) in files {
        if !holds(store, name, text.as_bytes()) {
            return false;
        }
    }
    true
}

/// Whether the call of a row leaves what the row says.
pub fn leaves<G: Gate + Sync, R: Threads + Wait + Sync>(
    rt: &R,
    alloc: Global,
    row: &Row,
    gate: &G,
) -> Result<bool, AllocError> {
    let words = words(alloc, row.words)?;
    let mut store = store_of(alloc, &row.before)?;
    let mut out = MemSink::new(alloc, 256)?;
    let mut err = MemSink::new(alloc, 512)?;
    let status = gridtool(rt, alloc, &words, &mut store, &mut out, &mut err, gate);
    Ok(
        status == row.status
            && out.bytes() == row.out.as_bytes()
            && err.bytes() == row.err.as_bytes()
            && holds_all(&store, &row.after),
    )
}
