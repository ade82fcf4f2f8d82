//! The command `check`.
ghost use Rattle.std.specs.Prelude.{[], Some};
ghost use Rattle.store_io.specs.Outside.{Outside};
ghost use Rattle.command_walks.specs.Following.{Prints};
ghost use Rattle.program_walks.specs.ProgramTexts.{summary_text};
ghost use Rattle.program_walks.specs.ProgramWalks.{checked_walk, check_walk};
ghost use Rattle.file_tools.specs.Troubles.{Follows};

use crate::trouble::Trouble;
use grid_exec::{Summary, check_program};
use grid_lang::Program;
use piece_file::Name;
use program_walks::open_program;
use std::alloc::Global;
use store_io::{Sink, SinkErr, Store};
use tool_lines::Part::{Count, Text, Words};
use tool_lines::say_to_end;

// Tells the numbers of a program.
#[tactic(auto, using(crate::proofs::CheckLaws::numbers_print))]
fn tell_numbers<O: Sink>(out: &mut O, sum: &Summary) -> Result<(), SinkErr>
    ensures { Prints result (summary_text sum.now.ranks sum.now.operations sum.now.messages sum.now.words)
        (O.state out.old) (O.state out.new) }
{
    let line = [
        Text("ranks "),
        Count(sum.ranks),
        Text("\noperations "),
        Count(sum.operations),
        Text("\nmessages "),
        Count(sum.messages),
        Text("\nwords "),
        Words(sum.words),
    ];
    say_to_end(out, &line)
}

// Checks a program, and tells its numbers.
#[tactic(auto, using(crate::proofs::CheckLaws::told_end, crate::proofs::CheckLaws::lost_end, crate::proofs::CheckLaws::check_stops))]
fn check_read<O: Sink>(
    alloc: Global,
    out: &mut O,
    name: Name,
    program: &Program,
) -> Result<(), Trouble>
    ensures { (store : Outside) → Follows result (checked_walk name program.now) (Some []) store store (O.state out.old)
        (O.state out.new) }
{
    let sum = match check_program(alloc, program) {
        Ok(sum) => sum,
        Err(error) => return Err(Trouble::planning(name, error)),
    };
    match tell_numbers(out, &sum) {
        Ok(()) => Ok(()),
        Err(_) => Err(Trouble::Output),
    }
}

/// Reads a grid program, checks it, and tells its numbers on the output. No other file is read.
#[tactic(auto, using(crate::proofs::ProgramLaws::read_on, crate::proofs::ProgramLaws::program_stops))]
pub(crate) fn run_check<S: Store, O: Sink>(
    alloc: Global,
    store: &mut S,
    out: &mut O,
    name: Name,
) -> Result<(), Trouble>
    ensures { Follows result (check_walk name) (Some []) (S.state store.old) (S.state store.new) (O.state out.old)
        (O.state out.new) }
{
    match open_program(alloc, store, name.as_str()) {
        Ok(program) => check_read(alloc, out, name, &program),
        Err(error) => Err(Trouble::opening(name, error)),
    }
}
