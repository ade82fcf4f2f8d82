//! The command `run`.
ghost use Rattle.std.specs.Prelude.{List, None};
ghost use Rattle.grid_lang.specs.declared.line.Numbered.{Numbered};
ghost use Rattle.program_meaning.specs.ProgramState.{ProgramState};
ghost use Rattle.grid_exec.specs.Jobs.{IsJobOf};
ghost use Rattle.program_results.specs.EndsView.{finished_saves, finished_output};
ghost use Rattle.command_walks.specs.Walk.{Ends};
ghost use Rattle.program_walks.specs.ProgramWalks.{results_walk, ran_walk, run_walk};
ghost use Rattle.file_tools.specs.Troubles.{Follows};

use crate::trouble::Trouble;
use grid_exec::{Job, Mode, plan_program, run_program};
use grid_lang::Program;
use piece_file::Name;
use program_results::Finished;
use program_walks::open_program;
use save_list::SaveList;
use std::alloc::Global;
use store_io::{Sink, Store};

/// Saves what a program saves, and then prints what it prints.
#[tactic(auto, using(crate::proofs::RunLaws::result_stops, crate::proofs::RunLaws::results_told, crate::proofs::RunLaws::results_lost))]
pub fn give_results<S: Store, O: Sink>(
    store: &mut S,
    out: &mut O,
    finished: Finished,
) -> Result<(), Trouble>
    ensures { Follows result (Ends (finished_saves finished) (finished_output finished)) None (S.state store.old)
        (S.state store.new) (O.state out.old) (O.state out.new) }
{
    match finished.save(store) {
        Ok(()) => {}
        Err(error) => return Err(Trouble::Failed(finished.into_name(error.save))),
    }
    match finished.print(out) {
        Ok(()) => Ok(()),
        Err(_) => Err(Trouble::Output),
    }
}

// Runs a job, saves and prints.
#[tactic(auto, using(crate::proofs::RunLaws::job_follows, command_walks::proofs::GoingOn::wants_memory))]
fn run_job<S: Store, O: Sink>(
    alloc: Global,
    store: &mut S,
    out: &mut O,
    job: Job,
    mode: Mode,
) -> Result<(), Trouble>
    ensures { (s : ProgramState) (program : List Numbered) → IsJobOf job s program →
        Follows result (results_walk program s) None (S.state store.old) (S.state store.new) (O.state out.old)
        (O.state out.new) }
{
    let finished = run_program(alloc, job, mode)?;
    give_results(store, out, finished)
}

// Plans a program, whose files are read as its lines come to them, and runs it.
#[tactic(auto, using(crate::proofs::RunLaws::planned_follows, crate::proofs::RunLaws::plan_stops))]
fn run_read<S: Store, O: Sink>(
    alloc: Global,
    store: &mut S,
    out: &mut O,
    name: Name,
    program: &Program,
    mode: Mode,
) -> Result<(), Trouble>
    ensures { Follows result (ran_walk name program.now) None (S.state store.old) (S.state store.new) (O.state out.old)
        (O.state out.new) }
{
    match plan_program(alloc, program, store) {
        Ok(job) => run_job(alloc, store, out, job, mode),
        Err(error) => Err(Trouble::planning(name, error)),
    }
}

/// Reads a grid program and the files that it loads, runs it in its plan's own order or in that which a seed draws, saves
/// and prints. All memory is taken before the first file is opened for writing.
#[tactic(auto, using(crate::proofs::ProgramLaws::read_on, crate::proofs::ProgramLaws::program_stops))]
pub(crate) fn run_file<S: Store, O: Sink>(
    alloc: Global,
    store: &mut S,
    out: &mut O,
    name: Name,
    mode: Mode,
) -> Result<(), Trouble>
    ensures { Follows result (run_walk name) None (S.state store.old) (S.state store.new) (O.state out.old)
        (O.state out.new) }
{
    match open_program(alloc, store, name.as_str()) {
        Ok(program) => run_read(alloc, store, out, name, &program, mode),
        Err(error) => Err(Trouble::opening(name, error)),
    }
}
