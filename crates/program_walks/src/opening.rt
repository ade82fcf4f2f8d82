//! Reading the program of a command.
ghost use Rattle.std.specs.Prelude.{ℕ, List, Option, IsTrue, IfOk, IfErr, OnOk};
ghost use Rattle.grid_lang.specs.declared.line.Numbered.{Numbered};
ghost use Rattle.command_walks.specs.Walk.{Walk, Comes};
ghost use Rattle.command_walks.specs.Following.{ReadsOn, StopsWith};
ghost use Rattle.program_walks.specs.ProgramWalks.{program_walk};
ghost use Rattle.program_walks.specs.Following.{program_status, program_line};

use grid_lang::Program;
use program_file::{ProgramErr, read_program};
use std::alloc::Global;
use store_io::Store;

/// Reads the program of a file. Whatever a walk does with it, it comes so far, or stops here.
#[tactic(auto, using(crate::proofs::ProgramLaws::program_comes, crate::proofs::ProgramLaws::program_stops, crate::proofs::ProgramLaws::reads_on))]
pub fn open_program<S: Store>(
    alloc: Global,
    store: &mut S,
    name: &str,
) -> Result<Program, ProgramErr>
    ensures comes { (next : List Numbered → Walk) → IsTrue (S.state store.old).told →
        IfOk result (λ p. Comes (program_walk name.now next) (S.state store.old).files (next p)) }
    ensures stops { (next : List Numbered → Walk) (names : Option (List (List ℕ))) → IfErr result (λ e.
        StopsWith (program_status e) (program_line name.now e) (program_walk name.now next) names (S.state store.old) (S.state store.new)) }
    ensures ok { OnOk result (ReadsOn (S.state store.old) (S.state store.new)) }
{
    match read_program(alloc, store, name) {
        Ok(program) => Ok(program),
        Err(error) => Err(error),
    }
}
