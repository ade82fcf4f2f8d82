//! The program: its words go to the top call, with the files of the system and its two streams.
#![tactic(auto)]

use file_tools::{Status, no_memory};
use rank_runner::OpenGate;
use std::process::ExitCode;
use std::{env, io};
use store_io::{DirStore, StdSink};
use tool_threads::gridtool;

// The status of arguments that weren't read: without memory as the tool tells it, else some argument isn't UTF-8, and
// nothing is said.
fn unread<W: io::Write + Drop>(err: &mut StdSink<W>, error: &io::Error) -> Status {
    match error.kind() {
        io::ErrorKind::OutOfMemory => no_memory(err),
        _ => Status::Words,
    }
}

fn main(rt: HostRuntime) -> ExitCode {
    let alloc = rt.alloc();
    let mut err = StdSink::new(rt.stderr());
    let args = match env::args(&rt) {
        Ok(args) => args,
        Err(error) => return ExitCode::from(unread(&mut err, &error).code()),
    };
    let Ok(mut words) = args.collect::<Vec<String>>(alloc) else {
        return ExitCode::from(no_memory(&mut err).code());
    };
    if !words.is_empty() {
        let _program = words.remove(0);
    }
    let mut out = StdSink::new(rt.stdout());
    let mut store = DirStore::new(&rt);
    let status = gridtool(
        &rt, alloc, &words, &mut store, &mut out, &mut err, &OpenGate,
    );
    ExitCode::from(status.code())
}
