//! The command `move --threads`.
ghost use Rattle.std.specs.Prelude.{map, Some};
ghost use Rattle.piece_file.specs.PieceView.{piece_view};
ghost use Rattle.piece_file.specs.Gathering.{AreTurns};
ghost use Rattle.file_tools.specs.SplitWalk.{piece_names};
ghost use Rattle.file_tools.specs.MoveWalk.{moved_walk, move_walk};
ghost use Rattle.file_tools.specs.TargetView.{target_view};
ghost use Rattle.file_tools.specs.Troubles.{Follows};

use file_tools::{LIMIT, MovedFiles, PieceNames, Target, Trouble, read_pieces, save_moved};
use piece_file::Piece;
use piece_moves::{first_head, words_of_move};
use program_threads::move_pieces_threads;
use rank_runner::Gate;
use std::alloc::Global;
use std::sync::Wait;
use std::thread::Threads;
use store_io::{Sink, Store};

// Moves the pieces with a thread for each rank, writes them, and tells the numbers.
fn move_whole<S: Store, O: Sink, G: Gate + Sync, R: Threads + Wait + Sync>(
    rt: &R,
    alloc: Global,
    store: &mut S,
    out: &mut O,
    pieces: Vec<Piece>,
    target: &Target<'_>,
    gate: &G,
) -> Result<(), Trouble>
    requires { AreTurns (map piece_view pieces.items) }
    ensures { Follows result (moved_walk (target_view target.now) (map piece_view pieces.items))
        (Some (piece_names (target_view target.now))) (S.state store.old) (S.state store.new) (O.state out.old) (O.state out.new) }
{
    let to = target.distribution();
    let words = words_of_move(&pieces, &to);
    if words > LIMIT {
        return Err(Trouble::TooMany(words));
    }
    let first = first_head(&pieces);
    let names = PieceNames::new(alloc, target)?;
    let (moved, _desks) = move_pieces_threads(rt, alloc, pieces, &to, gate)?;
    let files = MovedFiles {
        pieces: names,
        moved,
        first,
    };
    save_moved(store, out, files)
}

/// Gathers the pieces of a prefix, moves them to the distribution of the target with a thread for each rank, writes the moved
/// pieces, and tells the numbers of the move. All memory is taken before the first file is opened for writing.
#[tactic(auto, using(file_tools::proofs::FollowLaws::after_pieces, file_tools::proofs::FollowLaws::passed_on))]
pub(crate) fn run_move<S: Store, O: Sink, G: Gate + Sync, R: Threads + Wait + Sync>(
    rt: &R,
    alloc: Global,
    store: &mut S,
    out: &mut O,
    prefix: &str,
    target: &Target<'_>,
    gate: &G,
) -> Result<(), Trouble>
    ensures { Follows result (move_walk prefix.now (target_view target.now))
        (Some (piece_names (target_view target.now))) (S.state store.old) (S.state store.new) (O.state out.old) (O.state out.new) }
{
    let pieces = read_pieces(alloc, store, prefix)?;
    move_whole(rt, alloc, store, out, pieces, target, gate)
}
