//! Moving the pieces.
ghost use Rattle.std.specs.Prelude.{◌≡◌, ◌≤◌, ◌^◌, List, length, map, ◌<◌, IfOk};
ghost use Rattle.msg_core.specs.Plans.{PlanView};
ghost use Rattle.mr2d.specs.Homes.{cells_of};
ghost use Rattle.pack_words.specs.declared.rank_op.RankOp.{RankOp as Op};
ghost use Rattle.pack_words.specs.RankOps.{RankState};
ghost use Rattle.pack_words.specs.GridState.{arrays_held};
ghost use Rattle.plan_runs.specs.PlanRuns.{nodes_after};
ghost use Rattle.piece_grammar.specs.Head.{Piece as PieceOf};
ghost use Rattle.piece_file.specs.PieceView.{piece_view};
ghost use Rattle.piece_file.specs.Gathering.{AreTurns};
ghost use Rattle.piece_moves.specs.Distribution.{Distribution as DistributionOf};
ghost use Rattle.piece_moves.specs.DistributionView.{distribution_view};
ghost use Rattle.piece_moves.specs.PieceMove as by;
ghost use Rattle.piece_moves.specs.Sizes.{HoldTwo};
ghost use Rattle.piece_moves.specs.MoveRuns.{IsPlanned, AreMoved};

use crate::distribution::Distribution;
use crate::plans::{PlannedMove, plan_pieces};
use descriptor::Moved;
use pack_words::{LocalArray, RankMem};
use piece_file::Piece;
use plan_runs::{OneThread, Runner};
use std::alloc::{AllocError, Global};

/// The memories of all ranks after a move, and its numbers.
#[derive(Drop)]
pub struct MovedPieces {
    pub numbers: Moved,
    pub nodes: Vec<RankMem>,
}

/// The moved pieces of a planned move that was run, by its numbers and the memories after it.
pub fn finish(numbers: Moved, nodes: Vec<RankMem>) -> MovedPieces
    ensures numbers { result.numbers ≡ numbers }
    ensures nodes { result.nodes ≡ nodes }
    ensures moved { (ps : List PieceOf) (d : DistributionOf) (plan : PlanView Op) (before : List RankState) →
        IsPlanned ps d plan before numbers → nodes.items ≡ nodes_after plan.steps before →
        AreMoved ps d result.numbers result.nodes.items }
{
    MovedPieces { numbers, nodes }
}

/// Moves all pieces of a matrix to another distribution: the plan of PIGEMR2D, run by the runner. The only refusal is out
/// of memory.
pub fn move_pieces_by<R: Runner>(
    alloc: Global,
    pieces: Vec<Piece>,
    to: &Distribution,
    runner: &R,
) -> Result<MovedPieces, AllocError>
    requires turns { AreTurns (map piece_view pieces.items) }
    requires few { by.move_words (map piece_view pieces.items) (distribution_view to.now) ≤ 2 ^ 26 }
    ensures { IfOk result (λ m. AreMoved (map piece_view pieces.items) (distribution_view to.now)
        m.numbers m.nodes.items) }
{
    let PlannedMove {
        numbers,
        plan,
        nodes,
    } = plan_pieces(alloc, pieces, to)?;
    let nodes = runner.run(alloc, plan, nodes)?;
    Ok(finish(numbers, nodes))
}

/// Moves all pieces of a matrix to another distribution: the plan of PIGEMR2D, run in its own order, or in the order that
/// a seed draws. The only refusal is out of memory.
pub fn move_pieces(
    alloc: Global,
    pieces: Vec<Piece>,
    to: &Distribution,
    seed: Option<u64>,
) -> Result<MovedPieces, AllocError>
    requires turns { AreTurns (map piece_view pieces.items) }
    requires few { by.move_words (map piece_view pieces.items) (distribution_view to.now) ≤ 2 ^ 26 }
    ensures { IfOk result (λ m. AreMoved (map piece_view pieces.items) (distribution_view to.now)
        m.numbers m.nodes.items) }
{
    move_pieces_by(alloc, pieces, to, &OneThread { seed })
}

impl MovedPieces {
    /// The local array of piece `k`, by rows of the grid.
    #[tactic(auto, using(crate::proofs::ListLaws::has_second))]
    pub fn cells(&self, k: u32) -> &LocalArray
        requires rank { k < length self.now.nodes.items }
        requires two { HoldTwo self.now.nodes.items }
        ensures { result.now ≡ cells_of (map arrays_held self.now.nodes.items) k 1 }
    {
        match self.nodes[k as usize].array(1) {
            Some(cells) => cells,
            None => unreachable!(),
        }
    }
}
