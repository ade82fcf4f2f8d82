//! The sum of what a move leaves.
ghost use Rattle.std.specs.Prelude.{◌≡◌, ◌<◌, ◌≤◌, ◌+◌, ◌*◌, ◌^◌, length, map, unsigned_abs, IfOk};
ghost use Rattle.fold_ops.specs.Fold.{total};
ghost use Rattle.mr2d.specs.Homes.{cells_of};
ghost use Rattle.pack_words.specs.GridState.{arrays_held};
ghost use Rattle.piece_file.specs.PieceView.{piece_view};
ghost use Rattle.piece_file.specs.Gathering.{AreTurns};
ghost use Rattle.piece_moves.specs.DistributionView.{distribution_view};
ghost use Rattle.piece_moves.specs.PieceMove as by;
ghost use Rattle.piece_moves.specs.Numbers.{numbers_for};
ghost use Rattle.piece_moves.specs.Sizes.{HoldTwo};
ghost use Rattle.drawn_jobs.specs.Dealing.{whole_of, sum_after};

use crate::sums::{plus, sum_of};
use descriptor::Moved;
use piece_file::Piece;
use piece_moves::{Distribution, MovedPieces, move_pieces};
use std::alloc::{AllocError, Global};

/// The numbers of a move, and the sum of all words after it.
#[derive(Drop)]
pub(crate) struct MovedSum {
    pub(crate) numbers: Moved,
    pub(crate) sum: i64,
}

// The sum of piece `k`, by rows of the grid, as its rank has it after the move.
fn sum_at(moved: &MovedPieces, k: u32) -> i64
    requires rank { k < length moved.now.nodes.items }
    requires two { HoldTwo moved.now.nodes.items }
    ensures sum { result ≡ total (cells_of (map arrays_held moved.now.nodes.items) k 1).words }
    ensures small { unsigned_abs result ≤ 2 ^ 57 }
{
    sum_of(moved.cells(k))
}

// The sum of the first pieces, and of piece `k` after them.
#[tactic(auto, using(crate::proofs::AfterLaws::after_small))]
fn add_piece(moved: &MovedPieces, k: u32, before: i64) -> i64
    requires rank { k < length moved.now.nodes.items }
    requires few { k < 16 }
    requires two { HoldTwo moved.now.nodes.items }
    requires before { before ≡ sum_after (map arrays_held moved.now.nodes.items) k }
    requires small { unsigned_abs before ≤ k * 2 ^ 57 }
    ensures sum { result ≡ sum_after (map arrays_held moved.now.nodes.items) (k + 1) }
    ensures small { unsigned_abs result ≤ (k + 1) * 2 ^ 57 }
{
    plus(before, sum_at(moved, k))
}

// The sum of so many pieces.
#[tactic(auto, using(crate::proofs::AfterLaws::after_none))]
fn sum_moved(moved: &MovedPieces, count: u32) -> i64
    requires ranks { count ≤ length moved.now.nodes.items }
    requires few { count ≤ 16 }
    requires two { HoldTwo moved.now.nodes.items }
    ensures { result ≡ sum_after (map arrays_held moved.now.nodes.items) count }
{
    let mut sum = 0;
    for k in 0..count {
        sum = add_piece(moved, k, sum);
    }
    sum
}

/// Moves all pieces of a matrix to another distribution, of at most 16 processes, and adds up all words there: the sum of
/// the matrix. The only refusal is out of memory.
pub(crate) fn sum_on(
    alloc: Global,
    pieces: Vec<Piece>,
    to: &Distribution,
) -> Result<MovedSum, AllocError>
    requires turns { AreTurns (map piece_view pieces.items) }
    requires few { by.move_words (map piece_view pieces.items) (distribution_view to.now) ≤ 2 ^ 26 }
    requires ranks { to.now.nprow * to.now.npcol ≤ 16 }
    ensures sum { IfOk result (λ m. m.sum ≡ total (whole_of (map piece_view pieces.items)).values) }
    ensures numbers { IfOk result (λ m. m.numbers ≡ numbers_for (map piece_view pieces.items) (distribution_view to.now)) }
{
    let moved = move_pieces(alloc, pieces, to, None)?;
    let sum = sum_moved(&moved, to.nprow * to.npcol);
    Ok(MovedSum {
        numbers: moved.numbers,
        sum,
    })
}
