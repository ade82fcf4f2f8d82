//! What the words ask for.
use crate::Word;

/// How a program or a move runs.
#[derive(Clone, Copy, Debug, PartialEq, Eq)]
pub enum How {
    /// Neither `--threads` nor `--seed` stands among the words.
    Plain,
    /// `--threads`: one thread for each rank.
    Threads,
    /// `--seed S`: the order that this seed draws.
    Seed(u64),
}

/// A command with what its words say. Grids have 1 to 64 processes, blocks 1 to 2^24 rows or columns, and a size is 1 to
/// 2,000.
#[derive(Debug, Drop)]
pub enum Asked {
    /// `split IN OUT P Q MB NB`: the matrix file IN is spread over a grid of P by Q processes in blocks of MB by NB, and its
    /// pieces are the files `OUT.p.q`.
    Split {
        input: Word,
        output: Word,
        p: u32,
        q: u32,
        mb: u32,
        nb: u32,
    },
    /// `join PREFIX OUT`: the pieces `PREFIX.p.q` make the matrix file OUT.
    Join {
        prefix: Word,
        output: Word,
    },
    /// `move PREFIX OUT P Q MB NB`: the pieces `PREFIX.p.q` are spread anew, as pieces `OUT.p.q`.
    Move {
        prefix: Word,
        output: Word,
        p: u32,
        q: u32,
        mb: u32,
        nb: u32,
        how: How,
    },
    /// `check PROGRAM`: the grid program is checked.
    Check {
        program: Word,
    },
    /// `run PROGRAM`: the grid program is run.
    Run {
        program: Word,
        how: How,
    },
    /// `load SEED SIZE`: a matrix of SIZE by SIZE drawn numbers is moved there and back.
    Load {
        seed: u64,
        size: u32,
    },
}
