//! A grid program and its reading.
ghost use Rattle.std.specs.Prelude.{◌≡◌, List, IfOk, IfErr};
ghost use Rattle.line_text.specs.Formats.{Refusal, read_text};
ghost use Rattle.grid_lang.specs.Programs.{grid_format, IsProgramText, IsProgramFault, AreDecided, AreFirst};
ghost use Rattle.grid_lang.specs.ProgramParts.{HasParts};
ghost use Rattle.grid_lang.specs.Facts.{IsSound};
ghost use Rattle.grid_lang.specs.Answers.{IsStop, IsRead, TellsFault, IsProgramOr, IsFaultOr};
ghost use Rattle.grid_lang.specs.declared.fault.LangFault.{LangFault as Fault};
ghost use Rattle.grid_lang.specs.declared.line.Numbered.{Numbered as NumberedLine};

use crate::fault::{LangErr, LangFault};
use crate::halt::Halt;
use crate::line::Numbered;
use crate::reader::Reader;
use line_text::next_line;
use std::alloc::Global;
use std::marker::Model;

/// A grid program: contracts see it as the list of its lines that aren't skipped, with their numbers.
#[derive(Drop)]
pub struct Program {
    lines: Vec<Numbered>,
}

impl Model for Program {
    ghost use Rattle.std.specs.Prelude.{List};
    ghost use Rattle.grid_lang.specs.declared.line.Numbered.{Numbered};
    ghost use Rattle.grid_lang.specs.Facts.{IsSound};

    ghost Value = { List Numbered };

    ghost view = { λ p. p.lines.items };

    ghost invariant = { λ p. IsSound p.lines.items };
}

impl Program {
    pub(crate) fn new(lines: Vec<Numbered>) -> Program
        requires { IsSound lines.items }
        ensures { result ≡ lines.items }
    {
        Program { lines }
    }

    /// The lines: `RANKS` first, then declarations, exchanges and results. Each grid and array of a line is declared before it
    /// and is of the kind that the line takes.
    pub fn lines(&self) -> &[Numbered]
        ensures is { result.now ≡ self.now }
        ensures sound { IsSound self.now }
    {
        self.lines.as_slice()
    }
}

// Why a line stops the reading.
fn stopped(line: u32, halt: Halt) -> LangErr
    ensures { IsStop result line halt }
{
    match halt {
        Halt::Bad(what) => LangErr::Bad { line, what },
        Halt::NoMemory => LangErr::NoMemory,
    }
}

// What the text is read to.
#[tactic(auto, using(crate::proofs::ProgramSteps::begins, crate::proofs::ProgramSteps::taken, crate::proofs::ProgramSteps::refused, crate::proofs::ProgramSteps::ended, crate::proofs::ProgramSteps::too_early, crate::proofs::ProgramSteps::fewer))]
fn read_program(alloc: Global, text: &[u8]) -> Result<Program, LangErr>
    ensures { IsRead (read_text grid_format text.now) result }
{
    let mut reader = Reader::new(alloc);
    let mut rest = text;
    let mut number = 1u32;
    while let Some((line, after)) = next_line(rest) {
        match reader.take(alloc, number, line) {
            Ok(()) => {}
            Err(halt) => return Err(stopped(number, halt)),
        }
        rest = after;
        number += 1;
    }
    match reader.finish() {
        Ok(lines) => Ok(Program::new(lines)),
        Err(what) => Err(LangErr::Bad { line: number, what }),
    }
}

/// The program of a text in the language of grid programs, whose lines name the routines of A User's Guide to the BLACS and of
/// REDIST. `Bad` tells the first bad line, counted from 1, and the first of what is wrong with it; a text without RANKS is bad
/// at its number of lines plus 1. `NoMemory` comes where memory was refused.
pub fn parse_program(alloc: Global, text: &[u8]) -> Result<Program, LangErr>
    ensures ok { IfOk result (λ program. IsProgramText text.now program) }
    ensures parts { IfOk result (λ program. HasParts program) }
    ensures bad { IfErr result (λ err. TellsFault text.now err) }
    ensures program { (lines : List NumberedLine) → IsProgramText text.now lines → IsProgramOr result lines }
    ensures fault { (refusal : Refusal Fault) → IsProgramFault text.now refusal → IsFaultOr result refusal }
    ensures once { AreDecided }
    ensures first { AreFirst }
{
    read_program(alloc, text)
}
