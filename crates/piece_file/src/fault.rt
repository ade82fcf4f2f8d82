//! What can be wrong with a piece, and why pieces aren't there.
use crate::name::Name;
use descriptor::Info;
use mm_reader::MmFault;

/// What is wrong with a line of a piece, or with the file's end. Of the first line it is a fault of `Mm`; of the second the
/// first of `Mm`, `DescLine`, `Disagree`, `DescEntry`, `WrongPlace`; of the size line the first of `Mm`, `Shape`, `TooLarge`;
/// and of all others a fault of `Mm`.
#[derive(Clone, Copy, Debug, PartialEq, Eq)]
pub enum PieceFault {
    /// The second line isn't there; isn't `%DESC` at its first byte and eleven integers of 32 bits; has P or Q outside 1 to
    /// 64, or more than 64 processes; or has p or q outside the grid.
    DescLine,
    /// `descinit` gives this INFO for M, N, MB, NB, RSRC, CSRC and LLD at process (p, q).
    DescEntry(Info),
    /// The process (p, q) isn't that of the file's name.
    WrongPlace,
    /// One of P, Q, M, N, MB, NB, RSRC and CSRC differs from that of the first piece.
    Disagree,
    /// The array has so many rows and columns, and is to have LLD rows and as many columns as the process has, at least one.
    Shape(u32, u32, u32, u32),
    /// The arrays of the pieces up to this one have so many words, more than 2^26.
    TooLarge(u64),
    /// A fault that any matrix file can have.
    Mm(MmFault),
}

// A fault and its line, counted from 1.
#[derive(Clone, Copy)]
pub(crate) struct Refusal {
    pub(crate) line: u32,
    pub(crate) fault: PieceFault,
}

/// Why a piece, or the pieces of a matrix, weren't read.
#[derive(Debug, Drop)]
pub enum PieceErr {
    /// There is no file of this name.
    Missing(Name),
    /// The store failed at the file of this name.
    Failed(Name),
    /// The file of this name is refused at a line, counted from 1.
    Bad {
        name: Name,
        line: u32,
        fault: PieceFault,
    },
    /// Memory was wanted.
    NoMemory,
}
