//! What programs leave when they are planned with their files and run, as tests compare it.
use grid_exec::{ExecErr, ExecFault, Mode, plan_program, run_program};
use grid_lang::parse_program;
use mm_text::LoadErr;
use std::alloc::Global;
use store_io::{MemSink, MemStore};

/// A store with room for small files.
pub(crate) fn small_store(alloc: Global) -> Option<MemStore> {
    match MemStore::new(alloc, 1024, 8) {
        Ok(store) => Some(store),
        Err(_) => None,
    }
}

/// What a program prints, run in this way over a store, to which its files are saved before.
pub(crate) fn printed(
    alloc: Global,
    text: &str,
    store: &mut MemStore,
    mode: Mode,
) -> Option<MemSink> {
    let Ok(program) = parse_program(alloc, text.as_bytes()) else {
        return None;
    };
    let Ok(job) = plan_program(alloc, &program, store) else {
        return None;
    };
    let Ok(finished) = run_program(alloc, job, mode) else {
        return None;
    };
    let Ok(()) = finished.save(store) else {
        return None;
    };
    let Ok(mut sink) = MemSink::new(alloc, 256) else {
        return None;
    };
    match finished.print(&mut sink) {
        Ok(()) => Some(sink),
        Err(_) => None,
    }
}

/// Whether a program prints just this over an empty store.
pub(crate) fn prints(alloc: Global, text: &str, mode: Mode, output: &str) -> bool {
    let Some(mut store) = small_store(alloc) else {
        return false;
    };
    match printed(alloc, text, &mut store, mode) {
        Some(sink) => sink.bytes() == output.as_bytes(),
        None => false,
    }
}

/// Whether a store holds a file of just this text.
pub(crate) fn holds(store: &MemStore, name: &str, text: &str) -> bool {
    match store.file(name) {
        Some(bytes) => bytes == text.as_bytes(),
        None => false,
    }
}

/// The error of a program's plan over a store.
pub(crate) fn plan_error(alloc: Global, text: &str, store: &mut MemStore) -> Option<ExecErr> {
    let Ok(program) = parse_program(alloc, text.as_bytes()) else {
        return None;
    };
    match plan_program(alloc, &program, store) {
        Ok(_) => None,
        Err(e) => Some(e),
    }
}

/// The refused line of such an error, with its fault.
pub(crate) fn bad_line(error: Option<ExecErr>) -> Option<(u32, ExecFault)> {
    match error {
        Some(ExecErr::Bad { line, fault }) => Some((line, fault)),
        _ => None,
    }
}

/// The reason of such an error where it is a file's.
pub(crate) fn bad_file(error: Option<ExecErr>) -> Option<LoadErr> {
    match error {
        Some(ExecErr::Load { name: _, err }) => Some(err),
        _ => None,
    }
}
