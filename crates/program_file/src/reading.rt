//! Reading a grid program from a store.
ghost use Rattle.std.specs.Prelude.{IsTrue};
ghost use Rattle.text_io.specs.Reading.{OnlyReads};
ghost use Rattle.program_file.specs.ProgramFiles.{AreEnough, IsRead, IsReadSoFar, HasReason};

use crate::bytes::{Halt, take_bytes};
use grid_lang::{LangErr, LangFault, Program, parse_program};
use std::alloc::Global;
use store_io::{Store, StoreErr};

/// Why no program was read.
#[derive(Clone, Copy, Debug, PartialEq, Eq)]
pub enum ProgramErr {
    /// The store has no such file.
    Missing,
    /// The store failed.
    Failed,
    /// The first bad line, counted from 1, and what is wrong with it.
    Bad { line: u32, what: LangFault },
    /// Memory was wanted.
    NoMemory,
}

/// Reads the program of a file. No byte after number 4,202,497 is read: a longer file has a line that passes a limit, or an
/// earlier fault, within those. It doesn't close the input.
///
/// `Missing` comes where the store has no such file, `Failed` where it failed, `Bad` with the first line that can't stand in
/// a program and what is wrong with it, and `NoMemory` where memory was wanted.
#[tactic(auto, using(crate::proofs::EarlyLaws::enough, crate::proofs::EarlyLaws::text_of_front, crate::proofs::EarlyLaws::fault_of_front))]
pub fn read_program<S: Store>(
    alloc: Global,
    store: &mut S,
    name: &str,
) -> Result<Program, ProgramErr>
    ensures reads { IsTrue (S.state store.old).told → IsRead result (S.state store.old).files name.now }
    ensures so_far { IsTrue (S.state store.old).told →
        IsReadSoFar result (S.state store.old).files name.now (S.state store.new).left }
    ensures cause { HasReason result (S.state store.old) (S.state store.new) }
    ensures same { OnlyReads (S.state store.old) (S.state store.new) }
    ensures enough { AreEnough }
{
    match store.open_read(name) {
        Ok(()) => {}
        Err(StoreErr::Missing) => return Err(ProgramErr::Missing),
        Err(StoreErr::Failed) => return Err(ProgramErr::Failed),
    }
    let text = match take_bytes(alloc, store) {
        Ok(text) => text,
        Err(Halt::Failed) => return Err(ProgramErr::Failed),
        Err(Halt::NoMemory) => return Err(ProgramErr::NoMemory),
    };
    match parse_program(alloc, text.as_slice()) {
        Ok(program) => Ok(program),
        Err(LangErr::Bad { line, what }) => Err(ProgramErr::Bad { line, what }),
        Err(LangErr::NoMemory) => Err(ProgramErr::NoMemory),
    }
}
