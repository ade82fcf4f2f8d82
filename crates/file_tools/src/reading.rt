//! What a command reads before it saves: a matrix, or all pieces of a prefix.
ghost use Rattle.std.specs.Prelude.{ℕ, IsTrue, IfOk, IfErr, OnOk, List, Option, map};
ghost use Rattle.mm_grammar.specs.Matrix.{Matrix};
ghost use Rattle.mm_text.specs.Loading.{matrix_of};
ghost use Rattle.piece_grammar.specs.Head as grammar;
ghost use Rattle.piece_file.specs.PieceView.{piece_view};
ghost use Rattle.piece_file.specs.Gathering.{AreTurns};
ghost use Rattle.command_walks.specs.Walk.{Walk, Comes};
ghost use Rattle.command_walks.specs.ReadingWalks.{matrix_walk, pieces_walk};
ghost use Rattle.command_walks.specs.Following.{ReadsOn};
ghost use Rattle.file_tools.specs.Troubles.{Stops};

use crate::trouble::Trouble;
use mm_text::{Whole, read_matrix};
use piece_file::{Name, Piece, gather_pieces};
use std::alloc::Global;
use store_io::Store;

/// Reads the matrix of a file. Whatever a walk does with it, it comes so far, or stops here.
#[tactic(auto, using(command_walks::proofs::ReadingLaws::matrix_comes, crate::proofs::FollowLaws::load_stops, command_walks::proofs::ReadingLaws::reads_on))]
pub(crate) fn read_input<S: Store>(
    alloc: Global,
    store: &mut S,
    name: Name,
) -> Result<Whole, Trouble>
    ensures comes { (next : Matrix → Walk) → IsTrue (S.state store.old).told →
        IfOk result (λ w. Comes (matrix_walk name next) (S.state store.old).files (next (matrix_of w))) }
    ensures stops { (next : Matrix → Walk) (names : Option (List (List ℕ))) →
        IfErr result (λ t. Stops t (matrix_walk name next) names (S.state store.old) (S.state store.new)) }
    ensures ok { OnOk result (ReadsOn (S.state store.old) (S.state store.new)) }
{
    match read_matrix(alloc, store, name.as_str()) {
        Ok(whole) => Ok(whole),
        Err(error) => Err(Trouble::loading(name, error)),
    }
}

/// Reads all pieces of a prefix. Whatever a walk does with them, it comes so far, or stops here.
#[tactic(auto, using(command_walks::proofs::GatheringLaws::pieces_come, crate::proofs::FollowLaws::gather_stops, command_walks::proofs::ReadingLaws::reads_on))]
pub fn read_pieces<S: Store>(
    alloc: Global,
    store: &mut S,
    prefix: &str,
) -> Result<Vec<Piece>, Trouble>
    ensures comes { (next : List grammar.Piece → Walk) → IsTrue (S.state store.old).told →
        IfOk result (λ ps. Comes (pieces_walk prefix.now next) (S.state store.old).files (next (map piece_view ps.items))) }
    ensures stops { (next : List grammar.Piece → Walk) (names : Option (List (List ℕ))) →
        IfErr result (λ t. Stops t (pieces_walk prefix.now next) names (S.state store.old) (S.state store.new)) }
    ensures ok { OnOk result (ReadsOn (S.state store.old) (S.state store.new)) }
    ensures turns { IfOk result (λ ps. AreTurns (map piece_view ps.items)) }
{
    match gather_pieces(alloc, store, prefix) {
        Ok(pieces) => Ok(pieces),
        Err(error) => Err(Trouble::from(error)),
    }
}
