//! The heads of the pieces of a distribution.
ghost use Rattle.std.specs.Prelude.{◌≡◌, ◌<◌, ◌≤◌, ◌*◌, ◌^◌};
ghost use Rattle.piece_file.specs.HeadView.{head_view};
ghost use Rattle.piece_moves.specs.Distribution.{head_over};
ghost use Rattle.piece_moves.specs.DistributionView.{distribution_view};

use crate::distribution::Distribution;
use index_tools::numroc;
use piece_file::Head;

impl Distribution {
    /// The head of piece `k` of a matrix of so many rows and columns, by rows of the grid: the leading dimension is that
    /// of the process's rows, at least 1.
    pub fn head(&self, rows: u32, columns: u32, k: u32) -> Head
        requires rows_fit { rows ≤ 2 ^ 24 }
        requires columns_fit { columns ≤ 2 ^ 24 }
        requires piece { k < self.now.nprow * self.now.npcol }
        ensures { head_view result ≡ head_over (distribution_view self.now) rows columns k }
    {
        let prow = k / self.npcol;
        Head {
            nprow: self.nprow,
            npcol: self.npcol,
            prow,
            pcol: k % self.npcol,
            m: rows,
            n: columns,
            mb: self.mb,
            nb: self.nb,
            rsrc: 0,
            csrc: 0,
            lld: numroc(rows, self.mb, prow, 0, self.nprow).max(1),
        }
    }
}
