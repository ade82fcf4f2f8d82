//! Moves of pieces on threads.
ghost use Rattle.std.specs.Prelude.{◌≤◌, ◌^◌, List, map, IfOk};
ghost use Rattle.msg_core.specs.Plans.{PlanView};
ghost use Rattle.pack_words.specs.declared.rank_op.RankOp.{RankOp as Op};
ghost use Rattle.pack_words.specs.RankOps.{RankState};
ghost use Rattle.pack_words.specs.GridState.{rank_steps, rank_nodes};
ghost use Rattle.piece_file.specs.PieceView.{piece_view};
ghost use Rattle.piece_file.specs.Gathering.{AreTurns};
ghost use Rattle.piece_moves.specs.DistributionView.{distribution_view};
ghost use Rattle.piece_moves.specs.PieceMove.{move_words};
ghost use Rattle.piece_moves.specs.MoveRuns.{IsPlanned, AreMoved};
ghost use Rattle.rank_runner.specs.Ends.{AreEndDesks};

use crate::plans::run_plan_threads;
use mail_room::Desk;
use piece_file::Piece;
use piece_moves::{Distribution, MovedPieces, PlannedMove, finish, plan_pieces};
use rank_runner::Gate;
use std::alloc::{AllocError, Global};
use std::sync::Wait;
use std::thread::Threads;

/// Moves all pieces of a matrix to another distribution with one thread for each rank: as `piece_moves::move_pieces` does in
/// order. Beside the moved pieces stand the ranks' desks after the run. The only refusal is out of memory. Where the system
/// makes no thread it may never return.
pub fn move_pieces_threads<G: Gate + Sync, R: Threads + Wait + Sync>(
    rt: &R,
    alloc: Global,
    pieces: Vec<Piece>,
    to: &Distribution,
    gate: &G,
) -> Result<(MovedPieces, Vec<Desk>), AllocError>
    requires turns { AreTurns (map piece_view pieces.items) }
    requires few { move_words (map piece_view pieces.items) (distribution_view to.now) ≤ 2 ^ 26 }
    ensures moved { IfOk result (λ m. AreMoved (map piece_view pieces.items) (distribution_view to.now)
        m.0.numbers m.0.nodes.items) }
    ensures desks { IfOk result (λ m. (plan : PlanView Op) × ((nodes : List RankState) ×
        (IsPlanned (map piece_view pieces.items) (distribution_view to.now) plan nodes m.0.numbers ×
        AreEndDesks rank_steps rank_nodes plan.steps nodes m.1.items))) }
{
    let PlannedMove {
        numbers,
        plan,
        nodes,
    } = plan_pieces(alloc, pieces, to)?;
    let (nodes, desks) = run_plan_threads(rt, alloc, plan, nodes, gate)?;
    Ok((finish(numbers, nodes), desks))
}
