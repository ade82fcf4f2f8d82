//! The words of a move.
ghost use Rattle.std.specs.Prelude.{◌≡◌, ◌<◌, ◌≤◌, ◌*◌, ◌^◌, length, map};
ghost use Rattle.piece_grammar.specs.Head.{array_words as words_of_head};
ghost use Rattle.piece_grammar.specs.Pieces.{words_of};
ghost use Rattle.piece_file.specs.PieceView.{piece_view};
ghost use Rattle.piece_file.specs.Gathering.{AreTurns};
ghost use Rattle.piece_moves.specs.Distribution.{head_over};
ghost use Rattle.piece_moves.specs.DistributionView.{distribution_view};
ghost use Rattle.piece_moves.specs.PieceMove as by;

use crate::arguments::first_head;
use crate::distribution::Distribution;
use index_tools::numroc;
use piece_file::Piece;

// The words of a piece's local array.
fn array_words(piece: &Piece) -> u64
    ensures words { result ≡ words_of_head (piece_view piece.now).head }
    ensures bound { result ≤ 2 ^ 26 }
{
    u64::from(piece.cells.lld()) * u64::from(piece.cells.cols())
}

/// The words of the local arrays of pieces, of which there are at most 64.
#[tactic(auto, using(crate::proofs::WordCounts::pieces_more))]
pub fn pieces_words(pieces: &[Piece]) -> u64
    requires { length pieces.now ≤ 64 }
    ensures words { result ≡ words_of (map piece_view pieces.now) }
    ensures bound { result ≤ 64 * 2 ^ 26 }
{
    let mut words = 0u64;
    for piece in pieces {
        words += array_words(piece);
    }
    words
}

// The words of piece `k` of a matrix of so many rows and columns.
fn words_at(rows: u32, columns: u32, to: &Distribution, k: u32) -> u64
    requires rows_fit { rows ≤ 2 ^ 24 }
    requires columns_fit { columns ≤ 2 ^ 24 }
    requires piece { k < to.now.nprow * to.now.npcol }
    ensures words { result ≡ words_of_head (head_over (distribution_view to.now) rows columns k) }
    ensures bound { result ≤ 2 ^ 48 }
{
    let lld = numroc(rows, to.mb, k / to.npcol, 0, to.nprow).max(1);
    let width = numroc(columns, to.nb, k % to.npcol, 0, to.npcol).max(1);
    u64::from(lld) * u64::from(width)
}

/// The words of all local arrays of a matrix of so many rows and columns.
#[tactic(auto, using(crate::proofs::WordCounts::no_words, crate::proofs::WordCounts::more_words))]
pub fn words_over(rows: u32, columns: u32, to: &Distribution) -> u64
    requires rows_fit { rows ≤ 2 ^ 24 }
    requires columns_fit { columns ≤ 2 ^ 24 }
    ensures words { result ≡ by.words_over rows columns (distribution_view to.now) (to.now.nprow * to.now.npcol) }
    ensures bound { result ≤ 64 * 2 ^ 48 }
{
    let mut words = 0u64;
    for k in 0..to.nprow * to.npcol {
        words += words_at(rows, columns, to, k);
    }
    words
}

/// The words of a move: those of the local arrays of both distributions, and all that moves.
pub fn words_of_move(pieces: &[Piece], to: &Distribution) -> u64
    requires { AreTurns (map piece_view pieces.now) }
    ensures { result ≡ by.move_words (map piece_view pieces.now) (distribution_view to.now) }
{
    let first = first_head(pieces);
    pieces_words(pieces)
        + words_over(first.m, first.n, to)
        + u64::from(first.m) * u64::from(first.n)
}
