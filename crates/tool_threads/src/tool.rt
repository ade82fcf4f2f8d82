//! The top call.
ghost use Rattle.std.specs.Prelude.{◌≡◌, None, map, string_bytes};
ghost use Rattle.store_io.specs.Outside.{IsEither};
ghost use Rattle.tool_words.specs.CommandWords.{asked};
ghost use Rattle.file_tools.specs.ToolWalk.{walk_of, saved_names};
ghost use Rattle.command_walks.specs.Outcome.{IsOutcome, IsComplete};

use crate::moves::run_move;
use crate::programs::run_file;
use file_tools::{Status, Target, file_named, plain_tool, report};
use rank_runner::Gate;
use std::alloc::Global;
use std::sync::Wait;
use std::thread::Threads;
use store_io::{Sink, Store};
use tool_words::{Asked, How, read_words};

// Does the command of the words, on threads where they ask for threads.
#[tactic(auto, using(file_tools::proofs::ToolLaws::command_ends, file_tools::proofs::ToolLaws::never_usage))]
fn run_tool<S: Store, O: Sink, E: Sink, G: Gate + Sync, R: Threads + Wait + Sync>(
    rt: &R,
    alloc: Global,
    words: &[String],
    store: &mut S,
    out: &mut O,
    err: &mut E,
    gate: &G,
) -> Status
    ensures outcome { IsOutcome result (walk_of (map string_bytes words.now)) (saved_names (map string_bytes words.now))
        (S.state store.old) (S.state store.new) (O.state out.old) (O.state out.new) (E.state err.old) (E.state err.new) }
    ensures words { result ≡ Status.Words → asked (map string_bytes words.now) ≡ None }
    ensures outside { asked (map string_bytes words.now) ≡ None →
        IsEither (result ≡ Status.Words) (result ≡ Status.NoMemory) }
{
    match read_words(alloc, words) {
        Ok(
            Some(
                Asked::Move {
                    prefix,
                    output,
                    p,
                    q,
                    mb,
                    nb,
                    how: How::Threads,
                },
            ),
        ) => {
            let target = Target {
                prefix: output.as_str(),
                nprow: p,
                npcol: q,
                mb,
                nb,
            };
            let done = run_move(rt, alloc, store, out, prefix.as_str(), &target, gate);
            report(err, done)
        }
        Ok(
            Some(
                Asked::Run {
                    program,
                    how: How::Threads,
                },
            ),
        ) => {
            let done = run_file(rt, alloc, store, out, file_named(program), gate);
            report(err, done)
        }
        _ => plain_tool(alloc, words, store, out, err),
    }
}

/// Does what the words ask for, as `plain_tool` does, with the same answer: `run --threads` and `move --threads` run with a
/// thread for each rank, whose operations the gate sees, and everything else goes to `plain_tool`.
///
/// The promise holds if the call returns. Where the system makes no thread, a call with `--threads` may never return.
#[tactic(auto, using(command_walks::proofs::Completeness::complete))]
pub fn gridtool<S: Store, O: Sink, E: Sink, G: Gate + Sync, R: Threads + Wait + Sync>(
    rt: &R,
    alloc: Global,
    words: &[String],
    store: &mut S,
    out: &mut O,
    err: &mut E,
    gate: &G,
) -> Status
    ensures outcome { IsOutcome result (walk_of (map string_bytes words.now)) (saved_names (map string_bytes words.now))
        (S.state store.old) (S.state store.new) (O.state out.old) (O.state out.new) (E.state err.old) (E.state err.new) }
    ensures complete { IsComplete result (walk_of (map string_bytes words.now)) (S.state store.old) (S.state store.new)
        (O.state out.old) (O.state out.new) }
    ensures words { result ≡ Status.Words → asked (map string_bytes words.now) ≡ None }
    ensures outside { asked (map string_bytes words.now) ≡ None →
        IsEither (result ≡ Status.Words) (result ≡ Status.NoMemory) }
{
    run_tool(rt, alloc, words, store, out, err, gate)
}
