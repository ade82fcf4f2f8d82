//! The command `run --threads`.
ghost use Rattle.std.specs.Prelude.{List, None};
ghost use Rattle.grid_lang.specs.declared.line.Numbered.{Numbered};
ghost use Rattle.program_meaning.specs.ProgramState.{ProgramState};
ghost use Rattle.grid_exec.specs.Jobs.{IsJobOf};
ghost use Rattle.program_walks.specs.ProgramWalks.{results_walk, ran_walk, run_walk};
ghost use Rattle.file_tools.specs.Troubles.{Follows};

use file_tools::{Trouble, give_results};
use grid_exec::{Job, plan_program};
use grid_lang::Program;
use piece_file::Name;
use program_threads::run_program_threads;
use program_walks::open_program;
use rank_runner::Gate;
use std::alloc::Global;
use std::sync::Wait;
use std::thread::Threads;
use store_io::{Sink, Store};

// Runs a job with a thread for each rank, saves and prints.
#[tactic(auto, using(file_tools::proofs::RunLaws::job_follows, command_walks::proofs::GoingOn::wants_memory))]
fn run_job<S: Store, O: Sink, G: Gate + Sync, R: Threads + Wait + Sync>(
    rt: &R,
    alloc: Global,
    store: &mut S,
    out: &mut O,
    job: Job,
    gate: &G,
) -> Result<(), Trouble>
    ensures { (s : ProgramState) (program : List Numbered) → IsJobOf job s program →
        Follows result (results_walk program s) None (S.state store.old) (S.state store.new) (O.state out.old)
        (O.state out.new) }
{
    let (finished, _desks) = run_program_threads(rt, alloc, job, gate)?;
    give_results(store, out, finished)
}

// Plans a program, whose files are read as its lines come to them, and runs it.
#[tactic(auto, using(file_tools::proofs::RunLaws::planned_follows, file_tools::proofs::RunLaws::plan_stops))]
fn run_read<S: Store, O: Sink, G: Gate + Sync, R: Threads + Wait + Sync>(
    rt: &R,
    alloc: Global,
    store: &mut S,
    out: &mut O,
    name: Name,
    program: &Program,
    gate: &G,
) -> Result<(), Trouble>
    ensures { Follows result (ran_walk name program.now) None (S.state store.old) (S.state store.new) (O.state out.old)
        (O.state out.new) }
{
    match plan_program(alloc, program, store) {
        Ok(job) => run_job(rt, alloc, store, out, job, gate),
        Err(error) => Err(Trouble::planning(name, error)),
    }
}

/// Reads a grid program and the files that it loads, runs it with a thread for each rank, saves and prints. All memory is
/// taken before the first file is opened for writing.
#[tactic(auto, using(file_tools::proofs::ProgramLaws::read_on, file_tools::proofs::ProgramLaws::program_stops))]
pub(crate) fn run_file<S: Store, O: Sink, G: Gate + Sync, R: Threads + Wait + Sync>(
    rt: &R,
    alloc: Global,
    store: &mut S,
    out: &mut O,
    name: Name,
    gate: &G,
) -> Result<(), Trouble>
    ensures { Follows result (run_walk name) None (S.state store.old) (S.state store.new) (O.state out.old)
        (O.state out.new) }
{
    match open_program(alloc, store, name.as_str()) {
        Ok(program) => run_read(rt, alloc, store, out, name, &program, gate),
        Err(error) => Err(Trouble::opening(name, error)),
    }
}
