//! Pieces that are moved on.
ghost use Rattle.std.specs.List.{range_with_len};
ghost use Rattle.std.specs.Prelude.{◌≡◌, ◌<◌, ◌≤◌, ◌*◌, ◌^◌, length, map, IfOk};
ghost use Rattle.pack_words.specs.GridState.{arrays_held};
ghost use Rattle.piece_grammar.specs.Head.{IsHead};
ghost use Rattle.piece_file.specs.HeadView.{head_view};
ghost use Rattle.piece_file.specs.PieceView.{piece_view};
ghost use Rattle.piece_file.specs.Gathering.{AreTurns};
ghost use Rattle.piece_moves.specs.DistributionView.{distribution_view};
ghost use Rattle.piece_moves.specs.PieceMove as by;
ghost use Rattle.piece_moves.specs.Numbers.{numbers_for};
ghost use Rattle.piece_moves.specs.Sizes.{HoldTwo};
ghost use Rattle.drawn_jobs.specs.Dealing.{pieces_of, whole_of, piece_after, HavePieces};

use crate::cells::copy_of;
use descriptor::Moved;
use piece_file::{Head, Piece};
use piece_moves::{Distribution, MovedPieces, first_head, move_pieces};
use std::alloc::{AllocError, Global};

/// Pieces after a move, and the move's numbers.
#[derive(Drop)]
pub(crate) struct MovedOn {
    pub(crate) numbers: Moved,
    pub(crate) pieces: Vec<Piece>,
}

// Piece `k`, by rows of the grid, as its rank has it after the move.
fn piece_from(
    alloc: Global,
    moved: &MovedPieces,
    first: &Head,
    to: &Distribution,
    k: u32,
) -> Result<Piece, AllocError>
    requires head { IsHead (head_view first.now) }
    requires piece { k < to.now.nprow * to.now.npcol }
    requires rank { k < length moved.now.nodes.items }
    requires two { HoldTwo moved.now.nodes.items }
    requires sizes { HavePieces (distribution_view to.now) first.now.m first.now.n (map arrays_held moved.now.nodes.items) }
    ensures { IfOk result (λ p. piece_view p ≡ piece_after (distribution_view to.now) first.now.m first.now.n
        (map arrays_held moved.now.nodes.items) k) }
{
    let head = to.head(first.m, first.n, k);
    let cells = copy_of(alloc, moved.cells(k))?;
    Ok(Piece { head, cells })
}

// All pieces, as their ranks have them after the move.
#[tactic(auto, using(crate::proofs::ListLaws::mapped_more))]
fn pieces_from(
    alloc: Global,
    moved: &MovedPieces,
    first: &Head,
    to: &Distribution,
) -> Result<Vec<Piece>, AllocError>
    requires head { IsHead (head_view first.now) }
    requires ranks { to.now.nprow * to.now.npcol ≤ length moved.now.nodes.items }
    requires two { HoldTwo moved.now.nodes.items }
    requires sizes { HavePieces (distribution_view to.now) first.now.m first.now.n (map arrays_held moved.now.nodes.items) }
    ensures { IfOk result (λ v. map piece_view v.items ≡ map (piece_after (distribution_view to.now) first.now.m first.now.n
        (map arrays_held moved.now.nodes.items)) (range_with_len 0 (to.now.nprow * to.now.npcol))) }
{
    let count = to.nprow * to.npcol;
    let mut pieces = Vec::with_capacity(alloc, count as usize)?;
    for k in 0..count {
        pieces.push(piece_from(alloc, moved, first, to, k)?)?;
    }
    Ok(pieces)
}

/// Moves all pieces of a matrix to another distribution: the pieces of the same matrix there. The only refusal is out of
/// memory.
pub(crate) fn move_on(
    alloc: Global,
    pieces: Vec<Piece>,
    to: &Distribution,
) -> Result<MovedOn, AllocError>
    requires turns { AreTurns (map piece_view pieces.items) }
    requires few { by.move_words (map piece_view pieces.items) (distribution_view to.now) ≤ 2 ^ 26 }
    ensures pieces { IfOk result (λ m. map piece_view m.pieces.items ≡
        pieces_of (distribution_view to.now) (whole_of (map piece_view pieces.items))) }
    ensures numbers { IfOk result (λ m. m.numbers ≡ numbers_for (map piece_view pieces.items) (distribution_view to.now)) }
{
    let first = first_head(&pieces);
    let moved = move_pieces(alloc, pieces, to, None)?;
    let pieces = pieces_from(alloc, &moved, &first, to)?;
    Ok(MovedOn {
        numbers: moved.numbers,
        pieces,
    })
}
