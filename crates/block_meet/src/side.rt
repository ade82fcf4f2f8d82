//! A side of a move, its part, and the rectangles that the move is made of.

ghost use Rattle.std.specs.Prelude.{◌≡◌};
ghost use Rattle.block_meet.specs.Meets.{rows_of, columns_of};

use crate::Axis;
use pack_words::Cut;

/// How a matrix is spread: blocks of `mb` by `nb`, the first on process (`rsrc`, `csrc`) of an `nprow` by `npcol` grid.
#[derive(Clone, Copy, Debug, PartialEq, Eq)]
pub struct Side {
    pub mb: u32,
    pub nb: u32,
    pub rsrc: u32,
    pub csrc: u32,
    pub nprow: u32,
    pub npcol: u32,
}

/// A part that is cut out of A from element (`ia`, `ja`) on and out of B from (`ib`, `jb`) on, counted from 0.
#[derive(Clone, Copy, Debug, PartialEq, Eq)]
pub struct Sub {
    pub cut: Cut,
    pub ia: u32,
    pub ja: u32,
    pub ib: u32,
    pub jb: u32,
}

/// A rectangle of the cut, from its element (`i0`, `j0`) on. Its element (i0+u, j0+v) has the local indices (ai+u, aj+v)
/// in A and (bi+u, bj+v) in B. All are counted from 0.
#[derive(Clone, Copy, Debug, PartialEq, Eq)]
pub struct Meet {
    pub i0: u32,
    pub j0: u32,
    pub rows: u32,
    pub cols: u32,
    pub ai: u32,
    pub aj: u32,
    pub bi: u32,
    pub bj: u32,
}

impl Side {
    /// The rows from `first` on.
    pub fn rows(&self, first: u32) -> Axis
        ensures { result ≡ rows_of self.now first }
    {
        Axis {
            first,
            nb: self.mb,
            src: self.rsrc,
            procs: self.nprow,
        }
    }

    /// The columns from `first` on.
    pub fn columns(&self, first: u32) -> Axis
        ensures { result ≡ columns_of self.now first }
    {
        Axis {
            first,
            nb: self.nb,
            src: self.csrc,
            procs: self.npcol,
        }
    }
}
