//! A grid with arrays of the same sizes on each of its ranks and an empty plan; and plans that are run.

ghost use Rattle.std.specs.Prelude.{◌≡◌, ◌<◌, ◌≤◌, ◌+◌, ◌++◌, ℕ, [], length, slice_index, IfOk, OnOk};
ghost use Rattle.pack_words.specs.GridState.{GridState};
ghost use Rattle.pack_words.specs.GridShapes.{IsSize};
ghost use Rattle.pack_words.specs.GridPlans.{PlanMeans};
ghost use Rattle.scope_ops.specs.Refusals.{AreOfOneWorld};

use crate::memories::{Fill, all_memories};
use crate::trouble::Trouble;
use msg_core::{Plan, Stage, StageErr};
use pack_words::{RankMem, RankOp, Shapes};
use proc_grid::{Context, Order, World, gridinit};
use std::alloc::Global;

/// A grid by rows over the first ranks, the sizes of the arrays, how many arrays there are, and a plan.
#[derive(Drop)]
pub struct Trial {
    pub ctx: Context,
    pub shapes: Shapes,
    pub count: u32,
    pub plan: Plan<RankOp>,
}

/// The operations, messages and words of a plan, and the memories after it.
#[derive(Drop)]
pub struct Outcome {
    pub numbers: (u32, u32, u64),
    pub nodes: Vec<RankMem>,
}

impl Outcome {
    /// The word at row `i` and column `j`, from 0, of an array of a rank.
    pub fn word(&self, rank: usize, array: u32, i: u32, j: u32) -> Option<i32> {
        let held = match self.nodes.get(rank) {
            Some(node) => node.array(array),
            None => None,
        };
        match held {
            Some(cells) if i < cells.lld() && j < cells.cols() => Some(cells.get(i, j)),
            _ => None,
        }
    }
}

// An array of this size on every rank.
fn add_everywhere(alloc: Global, shapes: &mut Shapes, size: (u32, u32)) -> Result<(), Trouble>
    requires size { IsSize size }
    requires few { shapes.old.count < 65536 }
    ensures ranks { shapes.new.ranks ≡ shapes.old.ranks }
    ensures count { OnOk result (shapes.new.count ≡ shapes.old.count + 1) }
{
    let sizes = vec![in alloc; size; shapes.ranks() as usize]?;
    shapes.add(&sizes)?;
    Ok(())
}

// The shapes of so many ranks, and how many arrays there are.
fn shapes_of(alloc: Global, ranks: u32, sizes: &[(u32, u32)]) -> Result<(Shapes, u32), Trouble>
    ensures ranks { IfOk result (λ made. made.0.ranks ≡ ranks) }
    ensures count { IfOk result (λ made. made.1 ≡ made.0.count) }
{
    let mut shapes = Shapes::new(alloc, ranks)?;
    let mut count = 0;
    for size in sizes {
        if size.0 < 1 || size.0 > 1000 || size.1 > 1000 || count >= 100 {
            return Err(Trouble::Case);
        }
        add_everywhere(alloc, &mut shapes, *size)?;
        count += 1;
    }
    Ok((shapes, count))
}

/// So many ranks with a grid of `nprow` by `npcol`, and arrays of these sizes on every rank.
pub fn begin(
    alloc: Global,
    ranks: u32,
    grid: (u32, u32),
    sizes: &[(u32, u32)],
) -> Result<Trial, Trouble>
    ensures world { IfOk result (λ t. AreOfOneWorld t.plan t.shapes t.ctx) }
    ensures count { IfOk result (λ t. t.count ≡ t.shapes.count) }
    ensures empty { IfOk result (λ t. t.plan.steps ≡ []) }
{
    let Some(world) = World::new(ranks) else {
        return Err(Trouble::Case);
    };
    let Ok(ctx) = gridinit(alloc, &world, Order::R, grid.0, grid.1) else {
        return Err(Trouble::Case);
    };
    let (shapes, count) = shapes_of(alloc, ranks, sizes)?;
    let plan = Plan::new(alloc, ranks)?;
    Ok(Trial {
        ctx,
        shapes,
        count,
        plan,
    })
}

/// The plan with memories of the shapes that are filled by a formula, ready to run.
pub fn staged(
    alloc: Global,
    plan: Plan<RankOp>,
    shapes: &Shapes,
    count: u32,
    fill: &Fill,
) -> Result<Stage<RankMem>, Trouble>
    requires means { (f : GridState → GridState) × PlanMeans shapes.now plan f }
    requires count { count ≡ shapes.now.count }
    requires ranks { shapes.now.ranks ≡ plan.ranks }
{
    if plan.words() > 67108864 {
        return Err(Trouble::Case);
    }
    let nodes = all_memories(alloc, &plan, shapes, count, fill)?;
    match Stage::prepare(alloc, plan, nodes) {
        Ok(stage) => Ok(stage),
        Err(StageErr { plan: _, nodes: _ }) => Err(Trouble::Memory),
    }
}

/// The numbers of the plan, and the memories after it is run in its order.
pub fn run(
    alloc: Global,
    plan: Plan<RankOp>,
    shapes: &Shapes,
    count: u32,
    fill: &Fill,
) -> Result<Outcome, Trouble>
    requires means { (f : GridState → GridState) × PlanMeans shapes.now plan f }
    requires count { count ≡ shapes.now.count }
    requires ranks { shapes.now.ranks ≡ plan.ranks }
{
    let numbers = (plan.len(), plan.messages(), plan.words());
    let stage = staged(alloc, plan, shapes, count, fill)?;
    Ok(Outcome {
        numbers,
        nodes: stage.run_in_order(),
    })
}
