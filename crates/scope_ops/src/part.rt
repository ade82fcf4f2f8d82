//! Parts of a local array.

ghost use Rattle.std.specs.Prelude.{◌≡◌, ◌≤◌, IsTrue, [], ◌∷◌};
ghost use Rattle.pack_words.specs.Parts.{part_region};
ghost use Rattle.pack_words.specs.RankOps.{AreMoved};
ghost use Rattle.scope_ops.specs.Parts.{fits_at, fits, part_from, cut_of};

use pack_words::{Cut, Region, Regions, Shape};

/// An `m` by `n` part of a local array, from row `i` and column `j` on, both counted from 1.
#[derive(Clone, Copy, Debug, PartialEq, Eq)]
pub struct Part {
    pub array: u32,
    pub i: u32,
    pub j: u32,
    pub m: u32,
    pub n: u32,
}

/// A place of a local array: row `i` and column `j`, both counted from 1.
#[derive(Clone, Copy, Debug, PartialEq, Eq)]
pub struct Spot {
    pub array: u32,
    pub i: u32,
    pub j: u32,
}

impl Spot {
    // The part of the same rows and columns that begins here.
    pub(crate) fn part(&self, of: &Part) -> Part
        ensures { result ≡ part_from self.now of.now }
    {
        Part {
            array: self.array,
            i: self.i,
            j: self.j,
            m: of.m,
            n: of.n,
        }
    }
}

impl Part {
    // Whether the part lies in an array with this leading dimension and so many columns.
    pub(crate) fn fits(&self, size: (u32, u32)) -> bool
        ensures { result ≡ fits size self.now }
    {
        self.i >= 1
            && self.j >= 1
            && (self.i - 1) as u64 + self.m as u64 <= size.0 as u64
            && (self.j - 1) as u64 + self.n as u64 <= size.1 as u64
    }

    // The shape in a matrix of the part's rows and columns.
    pub(crate) fn cut(&self, shape: Shape) -> Cut
        ensures { result ≡ cut_of shape self.now }
    {
        Cut {
            shape,
            m: self.m,
            n: self.n,
        }
    }

    // The part as one region of the cut.
    pub(crate) fn region(&self, cut: &Cut) -> Region
        requires row { 1 ≤ self.now.i }
        requires column { 1 ≤ self.now.j }
        ensures { result ≡ part_region cut.now self.now.i self.now.j }
    {
        Region {
            li: self.i - 1,
            lj: self.j - 1,
            rows: cut.m,
            cols: cut.n,
            i0: 0,
            j0: 0,
        }
    }

    // The part as a list of one region, which knows how many elements it selects.
    pub(crate) fn regions(&self, cut: &Cut) -> Regions
        requires row { 1 ≤ self.now.i }
        requires column { 1 ≤ self.now.j }
        requires moved { AreMoved cut.now (part_region cut.now self.now.i self.now.j ∷ []) }
        ensures { result ≡ part_region cut.now self.now.i self.now.j ∷ [] }
    {
        Regions::one(self.region(cut)).counted(cut)
    }
}
