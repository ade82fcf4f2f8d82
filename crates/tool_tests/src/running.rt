//! Runs of the tool over files in memory.
use file_tools::{Status, plain_tool};
use std::alloc::{AllocError, Global};
use store_io::{MemSink, MemStore};

/// The words of a line.
pub fn words(alloc: Global, line: &str) -> Result<Vec<String>, AllocError> {
    let mut words = Vec::new(alloc);
    for word in line.split_whitespace() {
        words.push(String::from_str(alloc, word)?)?;
    }
    Ok(words)
}

/// Whether the store holds a file of these bytes.
pub fn holds(store: &MemStore, name: &str, bytes: &[u8]) -> bool {
    match store.file(name) {
        Some(held) => held == bytes,
        None => false,
    }
}

/// A run of the tool on the words of a line; nothing may be written to the output.
pub fn run(
    alloc: Global,
    store: &mut MemStore,
    err: &mut MemSink,
    line: &str,
) -> Result<Status, AllocError> {
    let words = words(alloc, line)?;
    let mut out = MemSink::new(alloc, 16)?;
    Ok(plain_tool(alloc, &words, store, &mut out, err))
}
