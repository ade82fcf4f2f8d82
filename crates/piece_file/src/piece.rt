//! Pieces in memory.
ghost use Rattle.std.specs.Prelude.{◌≡◌};
ghost use Rattle.piece_grammar.specs.Head.{array_columns};
ghost use Rattle.piece_file.specs.HeadView.{head_view};

use crate::head::Head;
use pack_words::LocalArray;

/// A piece that was read: its head, and the local array, of `head.lld` rows and as many columns as the process has of the
/// matrix, at least one.
#[derive(Debug, Drop)]
pub struct Piece {
    pub head: Head,
    pub cells: LocalArray,
    pub ghost lead: { cells.lld ≡ head.lld },
    pub ghost columns: { cells.cols ≡ array_columns (head_view head) },
}
