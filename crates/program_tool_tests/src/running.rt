//! Runs of the tool on a program in memory.
use file_tools::{Status, plain_tool};
use std::alloc::{AllocError, Global};
use std::process::Abort;
use std::test::Fail;
use store_io::{MemSink, MemStore};
use tool_tests::running::words;

/// A text in which `/` stands for the end of a line.
pub(crate) fn text(alloc: Global, lines: &str) -> Result<String, AllocError> {
    let mut text = String::new(alloc);
    for c in lines.chars() {
        text.push(if c == '/' { '\n' } else { c })?;
    }
    Ok(text)
}

/// A store that holds this program as `p.txt`, and this text, if any, as `m.mtx`.
pub(crate) fn store_of(alloc: Global, program: &str, file: &str) -> Result<MemStore, AllocError> {
    let mut store = MemStore::new(alloc, 16384, 16)?;
    let program = text(alloc, program)?;
    let _held = store.put("p.txt", program.as_bytes());
    if !file.is_empty() {
        let file = text(alloc, file)?;
        let _held = store.put("m.mtx", file.as_bytes());
    }
    Ok(store)
}

/// How a run of the tool ended, and what it wrote.
#[derive(Drop)]
pub(crate) struct Ended {
    pub(crate) status: Status,
    pub(crate) out: MemSink,
    pub(crate) err: MemSink,
}

impl Ended {
    /// Whether it ended with this status, output and error line.
    pub(crate) fn is(
        &self,
        alloc: Global,
        status: Status,
        output: &str,
        error: &str,
    ) -> Result<bool, AllocError> {
        let output = text(alloc, output)?;
        let error = text(alloc, error)?;
        Ok(
            self.status == status
                && self.out.bytes() == output.as_bytes()
                && self.err.bytes() == error.as_bytes(),
        )
    }
}

/// A run of the tool on the words of a line.
pub(crate) fn run(alloc: Global, store: &mut MemStore, line: &str) -> Result<Ended, AllocError> {
    let words = words(alloc, line)?;
    let mut out = MemSink::new(alloc, 1024)?;
    let mut err = MemSink::new(alloc, 256)?;
    let status = plain_tool(alloc, &words, store, &mut out, &mut err);
    Ok(Ended { status, out, err })
}

/// Whether the store holds a file of this text.
pub(crate) fn has(
    alloc: Global,
    store: &MemStore,
    name: &str,
    lines: &str,
) -> Result<bool, AllocError> {
    let text = text(alloc, lines)?;
    Ok(match store.file(name) {
        Some(held) => held == text.as_bytes(),
        None => false,
    })
}

// Whether a command on the program ends with this status, output and error line; after a refusal the program is as it was, and
// nothing is saved.
fn ends_so(
    alloc: Global,
    line: &str,
    program: &str,
    status: Status,
    output: &str,
    error: &str,
) -> Result<bool, AllocError> {
    let mut store = store_of(alloc, program, "")?;
    let ended = run(alloc, &mut store, line)?;
    let kept = status == Status::Done
        || store.file("s").is_none() && has(alloc, &store, "p.txt", program)?;
    Ok(kept && ended.is(alloc, status, output, error)?)
}

/// Each program ends well under this command, with the output beside it.
pub(crate) fn writes(
    rt: &impl Abort,
    alloc: Global,
    line: &str,
    rows: &[(&str, &str)],
) -> Result<(), Fail> {
    for (program, output) in rows {
        assert!(rt;
            ends_so(alloc, line, *program, Status::Done, *output, "")?,
            "{program}"
        );
    }
    Ok(())
}

// Whether a check and a run of the program are refused with this fault.
fn refuses_so(alloc: Global, program: &str, fault: &str) -> Result<bool, AllocError> {
    let error = format!(in alloc; "gridtool: p.txt: {fault}/")?;
    let error = error.as_str();
    let checked = ends_so(alloc, "check p.txt", program, Status::Refused, "", error)?;
    let ran = ends_so(alloc, "run p.txt", program, Status::Refused, "", error)?;
    Ok(checked && ran)
}

/// A check and a run of each program are refused with the fault beside it.
pub(crate) fn refuses(rt: &impl Abort, alloc: Global, rows: &[(&str, &str)]) -> Result<(), Fail> {
    for (program, fault) in rows {
        assert!(rt; refuses_so(alloc, *program, *fault)?, "{program}");
    }
    Ok(())
}
