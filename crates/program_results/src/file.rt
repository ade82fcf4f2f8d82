//! What the result lines of a program ask for.
use piece_file::Name;

/// What a file is to hold: the whole matrix of an ARRAY, or the piece of a process of its grid, counted by rows.
#[derive(Clone, Copy, Debug)]
pub(crate) enum Source {
    Whole { array: u32 },
    Piece { array: u32, process: u32 },
}

/// A file that is to be saved.
#[derive(Debug, Drop)]
pub(crate) struct File {
    pub(crate) name: Name,
    pub(crate) source: Source,
}

/// What is to be printed: the whole matrix of an ARRAY, or the array that a rank has of a MATRIX.
#[derive(Clone, Copy, Debug)]
pub(crate) enum Print {
    Array { array: u32 },
    Matrix { array: u32, rank: u32 },
}
