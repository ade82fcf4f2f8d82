//! What keeps a command from its end.
ghost use Rattle.std.specs.Prelude.{◌≡◌};
ghost use Rattle.file_tools.specs.Causes.{of_load, of_piece, of_program, of_exec};
ghost use Rattle.file_tools.specs.Troubles.{status_of};
ghost use Rattle.file_tools.specs.declared.trouble.Trouble.TheVariants as trouble;

use command_walks::Status;
use grid_exec::ExecErr;
use grid_lang::LangFault;
use mm_reader::MmErr;
use mm_text::LoadErr;
use piece_file::{Name, PieceErr, PieceFault};
use program_file::ProgramErr;
use program_meaning::ExecFault;
use std::alloc::{AllocError, AllocFailed};

/// Why a command didn't come to its end.
#[derive(Debug, Drop)]
pub enum Trouble {
    /// There is no file of this name.
    Missing(Name),
    /// The store failed at the file of this name.
    Failed(Name),
    /// The matrix file of this name is refused.
    Matrix(Name, MmErr),
    /// The piece of this name is refused at a line, counted from 1.
    Piece(Name, u32, PieceFault),
    /// The text of the program of this name is refused at a line, counted from 1.
    Program(Name, u32, LangFault),
    /// A line of the program of this name, counted from 1, can't be done.
    Line(Name, u32, ExecFault),
    /// The job has so many words, above the limit.
    TooMany(u64),
    /// Memory was wanted.
    NoMemory,
    /// The output failed.
    Output,
}

impl Trouble {
    /// Why the matrix file of this name wasn't read.
    pub fn loading(name: Name, error: LoadErr) -> Trouble
        ensures { result ≡ of_load name error }
    {
        match error {
            LoadErr::Missing => Trouble::Missing(name),
            LoadErr::Failed => Trouble::Failed(name),
            LoadErr::Mm(error) => Trouble::Matrix(name, error),
            LoadErr::NoMemory => Trouble::NoMemory,
        }
    }

    /// Why the program of this name wasn't read.
    pub fn opening(name: Name, error: ProgramErr) -> Trouble
        ensures { result ≡ of_program name error }
    {
        match error {
            ProgramErr::Missing => Trouble::Missing(name),
            ProgramErr::Failed => Trouble::Failed(name),
            ProgramErr::Bad { line, what } => Trouble::Program(name, line, what),
            ProgramErr::NoMemory => Trouble::NoMemory,
        }
    }

    /// Why the program of this name, or a file that it loads, is refused.
    pub fn planning(name: Name, error: ExecErr) -> Trouble
        ensures { result ≡ of_exec name error }
    {
        match error {
            ExecErr::Bad { line, fault } => Trouble::Line(name, line, fault),
            ExecErr::Load { name, err } => Trouble::loading(name, err),
            ExecErr::NoMemory => Trouble::NoMemory,
        }
    }

    /// How the tool ends that meets it.
    pub fn status(&self) -> Status
        ensures { result ≡ status_of self.now }
    {
        match self {
            Trouble::Missing(_) | Trouble::Failed(_) => Status::Store,
            Trouble::Matrix(_, _)
            | Trouble::Piece(_, _, _)
            | Trouble::Program(_, _, _)
            | Trouble::Line(_, _, _)
            | Trouble::TooMany(_) => Status::Refused,
            Trouble::NoMemory => Status::NoMemory,
            Trouble::Output => Status::Sink,
        }
    }
}

impl From<AllocError> for Trouble {
    ghost from_gives = { λ _ t. t ≡ trouble.NoMemory };

    fn from(_error: AllocError) -> Trouble {
        Trouble::NoMemory
    }
}

impl<T: Drop> From<AllocFailed<T>> for Trouble {
    ghost from_gives = { λ _ t. t ≡ trouble.NoMemory };

    fn from(_error: AllocFailed<T>) -> Trouble {
        Trouble::NoMemory
    }
}

impl From<PieceErr> for Trouble {
    ghost from_gives = { λ e t. t ≡ of_piece e };

    fn from(error: PieceErr) -> Trouble {
        match error {
            PieceErr::Missing(name) => Trouble::Missing(name),
            PieceErr::Failed(name) => Trouble::Failed(name),
            PieceErr::Bad { name, line, fault } => Trouble::Piece(name, line, fault),
            PieceErr::NoMemory => Trouble::NoMemory,
        }
    }
}
