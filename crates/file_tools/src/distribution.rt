//! The distribution that a target names, and the heads of its pieces.
ghost use Rattle.std.specs.Prelude.{◌≡◌, ◌<◌, ◌≤◌, ◌*◌, ◌^◌};
ghost use Rattle.piece_file.specs.HeadView.{head_view};
ghost use Rattle.piece_moves.specs.DistributionView.{distribution_view};
ghost use Rattle.file_tools.specs.SplitWalk.{distribution_of, head_of};
ghost use Rattle.file_tools.specs.TargetView.{target_view};

use crate::target::Target;
use piece_file::Head;
use piece_moves::Distribution;

impl Target<'_> {
    /// Its grid and blocks.
    pub fn distribution(&self) -> Distribution
        ensures { distribution_view result ≡ distribution_of (target_view self.now) }
    {
        Distribution {
            nprow: self.nprow,
            npcol: self.npcol,
            mb: self.mb,
            nb: self.nb,
        }
    }

    /// The head of piece `k` of a matrix of so many rows and columns, by rows of the grid.
    pub(crate) fn head(&self, rows: u32, columns: u32, k: u32) -> Head
        requires rows_fit { rows ≤ 2 ^ 24 }
        requires columns_fit { columns ≤ 2 ^ 24 }
        requires piece { k < self.now.nprow * self.now.npcol }
        ensures { head_view result ≡ head_of (target_view self.now) rows columns k }
    {
        self.distribution().head(rows, columns, k)
    }
}
