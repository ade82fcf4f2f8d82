//! The plan of a move of pieces.
ghost use Rattle.std.specs.Prelude.{◌≡◌, ◌≤◌, ◌^◌, [], List, map, IfOk, OnOk};
ghost use Rattle.pack_words.specs.declared.shape.Shape.TheVariants.{Ge};
ghost use Rattle.pack_words.specs.RankOps.{RankState};
ghost use Rattle.mr2d.specs.Calls.{AppendsMove, IsMoved};
ghost use Rattle.piece_grammar.specs.Head.{Piece as PieceOf, IsHead};
ghost use Rattle.piece_file.specs.HeadView.{head_view};
ghost use Rattle.piece_file.specs.PieceView.{piece_view};
ghost use Rattle.piece_file.specs.Gathering.{AreTurns};
ghost use Rattle.piece_moves.specs.DistributionView.{distribution_view};
ghost use Rattle.piece_moves.specs.PieceMove as by;
ghost use Rattle.piece_moves.specs.Distribution.{Distribution as DistributionOf};
ghost use Rattle.piece_moves.specs.Planning.{IsPrepared};
ghost use Rattle.piece_moves.specs.MoveRuns.{IsPlanned};

use crate::arguments::{args_for, first_head};
use crate::arrays::memories;
use crate::distribution::Distribution;
use crate::grids::contexts_for;
use crate::sizes::shapes_of;
use descriptor::{Moved, MrArgs, MrErr};
use mr2d::pigemr2d;
use msg_core::Plan;
use pack_words::{RankMem, RankOp, Shapes};
use piece_file::{Head, Piece};
use proc_grid::Contexts;
use std::alloc::{AllocError, Global};

/// A move that is planned: its numbers, its plan and the memories of all ranks before it.
#[derive(Drop)]
pub struct PlannedMove {
    pub numbers: Moved,
    pub plan: Plan<RankOp>,
    pub nodes: Vec<RankMem>,
}

// Appends the move to a plan without operations. The arguments pass their check, and the plan has room.
fn append_move(
    alloc: Global,
    plan: &mut Plan<RankOp>,
    args: &MrArgs,
    contexts: &Contexts,
    shapes: &Shapes,
) -> Result<Moved, AllocError>
    requires prepared { (ps : List PieceOf) × ((d : DistributionOf) × ((nodes : List RankState) ×
        IsPrepared ps d args.now contexts.now shapes.now nodes)) }
    requires ranks { plan.old.ranks ≡ shapes.now.ranks }
    requires none { plan.old.steps ≡ [] }
    ensures appends { OnOk result (AppendsMove contexts.now Ge args.now shapes.now plan.old plan.new) }
    ensures done { IfOk result (IsMoved contexts.now shapes.now Ge args.now plan.old plan.new) }
    ensures ranks { plan.new.ranks ≡ plan.old.ranks }
{
    match pigemr2d(alloc, plan, shapes, contexts, args) {
        Ok(numbers) => Ok(numbers),
        Err(MrErr::NoMemory) => Err(AllocError),
        Err(MrErr::Info(_)) => unreachable!(),
        Err(MrErr::SameArray) => unreachable!(),
        Err(MrErr::TooManyOps) => unreachable!(),
    }
}

// Plans the move of prepared memories.
fn plan_move(
    alloc: Global,
    args: &MrArgs,
    contexts: &Contexts,
    shapes: &Shapes,
    nodes: Vec<RankMem>,
) -> Result<PlannedMove, AllocError>
    requires { (ps : List PieceOf) × ((d : DistributionOf) × IsPrepared ps d args.now contexts.now shapes.now nodes.items) }
    ensures { (ps : List PieceOf) (d : DistributionOf) → IsPrepared ps d args.now contexts.now shapes.now nodes.items →
        IfOk result (λ p. IsPlanned ps d p.plan p.nodes.items p.numbers) }
{
    let mut plan: Plan<RankOp> = Plan::new(alloc, shapes.ranks())?;
    let numbers = append_move(alloc, &mut plan, args, contexts, shapes)?;
    Ok(PlannedMove {
        numbers,
        plan,
        nodes,
    })
}

// As many ranks as the larger grid has.
fn ranks_for(first: &Head, to: &Distribution) -> u32
    requires { IsHead (head_view first.now) }
    ensures ranks { result ≡ by.ranks_for (head_view first.now) (distribution_view to.now) }
    ensures few { result ≤ 64 }
{
    (first.nprow * first.npcol).max(to.nprow * to.npcol)
}

/// Plans the move of all pieces of a matrix to another distribution: PIGEMR2D between the two grids, in a world of as many
/// ranks as the larger has. The only refusal is out of memory.
pub fn plan_pieces(
    alloc: Global,
    pieces: Vec<Piece>,
    to: &Distribution,
) -> Result<PlannedMove, AllocError>
    requires turns { AreTurns (map piece_view pieces.items) }
    requires few { by.move_words (map piece_view pieces.items) (distribution_view to.now) ≤ 2 ^ 26 }
    ensures { IfOk result (λ p. IsPlanned (map piece_view pieces.items) (distribution_view to.now)
        p.plan p.nodes.items p.numbers) }
{
    let first = first_head(&pieces);
    let ranks = ranks_for(&first, to);
    let args = args_for(alloc, &pieces, to)?;
    let contexts = contexts_for(alloc, &first, to, ranks)?;
    let nodes = memories(alloc, pieces, &first, to, ranks)?;
    let shapes = shapes_of(alloc, &nodes)?;
    plan_move(alloc, &args, &contexts, &shapes, nodes)
}
