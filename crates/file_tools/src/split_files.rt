//! The pieces of a split, as files that are to be saved.
ghost use Rattle.std.specs.Prelude.{◌≡◌, ◌<◌, ◌*◌, [], length, slice_index_or, IfOk};
ghost use Rattle.index_tools.specs.Spread.{spread};
ghost use Rattle.mm_text.specs.Loading.{matrix_of};
ghost use Rattle.spread_cells.specs.PieceView.{piece_matrix};
ghost use Rattle.spread_cells.specs.Owned.{lists_of, owned_by};
ghost use Rattle.file_tools.specs.SplitWalk.{cells_of};
ghost use Rattle.file_tools.specs.TargetView.{target_view};

use crate::names::PieceNames;
use crate::target::Target;
use mm_text::Whole;
use piece_file::{Name, write_cells};
use save_list::SaveList;
use spread_cells::{PieceCells, owned_lists};
use std::alloc::{AllocError, Global};
use store_io::{Store, StoreErr};

/// A matrix, the names of its pieces, and its rows and columns that lie in each process row and column.
#[derive(Drop)]
pub(crate) struct SplitFiles<'a> {
    pub(crate) pieces: PieceNames<'a>,
    pub(crate) whole: &'a Whole,
    pub(crate) rows: Vec<Vec<u32>>,
    pub(crate) columns: Vec<Vec<u32>>,
    pub ghost rows_are: { lists_of rows.items ≡ owned_by (spread pieces.target.mb 0 pieces.target.nprow) whole.now.rows pieces.target.nprow },
    pub ghost columns_are: { lists_of columns.items ≡ owned_by (spread pieces.target.nb 0 pieces.target.npcol) whole.now.columns pieces.target.npcol },
}

// One of the lists.
fn list_at(lists: &[Vec<u32>], i: u32) -> &[u32]
    requires { i < length lists.now }
    ensures { result.now ≡ slice_index_or (lists_of lists.now) i [] }
{
    lists[i as usize].as_slice()
}

impl<'a> SplitFiles<'a> {
    /// Takes all the memory of a split of this matrix.
    pub(crate) fn new(
        alloc: Global,
        target: &Target<'a>,
        whole: &'a Whole,
    ) -> Result<SplitFiles<'a>, AllocError>
        ensures target { IfOk result (λ s. s.pieces.target ≡ target.now) }
        ensures whole { IfOk result (λ s. s.whole.now ≡ whole.now) }
    {
        let pieces = PieceNames::new(alloc, target)?;
        let rows = owned_lists(alloc, whole.rows, target.mb, 0, target.nprow)?;
        let columns = owned_lists(alloc, whole.columns, target.nb, 0, target.npcol)?;
        Ok(SplitFiles {
            pieces,
            whole,
            rows,
            columns,
        })
    }

    // The local array of piece `k`.
    #[tactic(auto, using(spread_cells::proofs::OwnedLists::list_fits))]
    fn piece_at(&self, k: u32) -> PieceCells<'_>
        requires { k < self.now.pieces.target.nprow * self.now.pieces.target.npcol }
        ensures { piece_matrix result ≡ cells_of (target_view self.now.pieces.target) (matrix_of self.now.whole.now) k }
    {
        let target = &self.pieces.target;
        let rows = list_at(&self.rows, k / target.npcol);
        let columns = list_at(&self.columns, k % target.npcol);
        PieceCells {
            whole: self.whole,
            rows,
            columns,
        }
    }
}

impl SaveList for SplitFiles<'_> {
    ghost use Rattle.std.specs.Prelude.{◌*◌};
    ghost use Rattle.mm_text.specs.Loading.{matrix_of};
    ghost use Rattle.file_tools.specs.SplitWalk.{save_of};
    ghost use Rattle.file_tools.specs.TargetView.{target_view};

    ghost count = { λ s. s.pieces.target.nprow * s.pieces.target.npcol };

    ghost save_at = { λ s. save_of (target_view s.pieces.target) (matrix_of s.whole.now) };

    fn count_saves(&self) -> u32 {
        self.pieces.target.nprow * self.pieces.target.npcol
    }

    #[tactic(auto, using(crate::proofs::SplitLaws::saves_along))]
    fn save_one<S: Store>(&self, store: &mut S, number: u32) -> Result<(), StoreErr> {
        let piece = self.piece_at(number);
        let target = &self.pieces.target;
        let head = target.head(self.whole.rows, self.whole.columns, number);
        write_cells(store, self.pieces.name(number), &head, &piece)
    }

    fn into_name(self, number: u32) -> Name {
        self.pieces.into_name(number)
    }
}
