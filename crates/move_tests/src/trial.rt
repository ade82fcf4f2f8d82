//! Moves between spread matrices, planned and run to their words.

ghost use Rattle.std.specs.Prelude.{◌≡◌, ◌<◌, ◌≤◌, ◌+◌, length, IfOk, OnOk};
ghost use Rattle.pack_words.specs.GridShapes.{HasShapes};
ghost use Rattle.pack_words.specs.GridPlans.{first_grid};
ghost use Rattle.move_tests.specs.MovePlans.{IsTrial};

use crate::able::{are_sizes, fresh_plan, moved, part_moved};
use crate::matrix::Matrix;
use crate::memories::{Fill, all_memories};
use descriptor::{Moved, MrArgs, MrErr};
use msg_core::{Plan, SeedPicks, Stage, StageErr};
use pack_words::{RankMem, RankOp, Shapes};
use proc_grid::Contexts;
use std::alloc::Global;
use std::test::Fail;

/// What goes: of a whole shape or of a trapezoid by its two letters, so many rows and columns, from an element of A on
/// to an element of B on, both counted from 0.
#[derive(Clone, Copy, Debug)]
pub struct Case {
    pub letters: Option<(char, char)>,
    pub sizes: (u32, u32),
    pub a: Matrix,
    pub from: (u32, u32),
    pub b: Matrix,
    pub to: (u32, u32),
}

impl Case {
    /// The arguments of the move of array `a` to array `b`.
    pub fn args(&self, alloc: Global, contexts: &Contexts, a: u32, b: u32) -> Result<MrArgs, Fail>
        ensures a { IfOk result (λ args. args.a ≡ a) }
        ensures b { IfOk result (λ args. args.b ≡ b) }
    {
        let source = contexts.get(i64::from(self.a.ctxt)).ok_or("a grid")?;
        let target = contexts.get(i64::from(self.b.ctxt)).ok_or("a grid")?;
        let homes_a = self.a.homes(alloc, source)?.ok_or("blocks")?;
        let homes_b = self.b.homes(alloc, target)?.ok_or("blocks")?;
        Ok(MrArgs {
            m: i64::from(self.sizes.0),
            n: i64::from(self.sizes.1),
            a,
            ia: i64::from(self.from.0).wrapping_add(1),
            ja: i64::from(self.from.1).wrapping_add(1),
            desca: self.a.spread(alloc, &homes_a, source)?,
            b,
            ib: i64::from(self.to.0).wrapping_add(1),
            jb: i64::from(self.to.1).wrapping_add(1),
            descb: self.b.spread(alloc, &homes_b, target)?,
            ictxt: 0,
        })
    }
}

/// Grids, arrays of as many ranks as they need, and a plan of moves between these arrays.
#[derive(Drop)]
pub struct Trial {
    pub contexts: Contexts,
    pub shapes: Shapes,
    pub count: u32,
    pub plan: Plan<RankOp>,
}

// The arrays of a matrix, beside those before.
fn add_array(
    alloc: Global,
    contexts: &Contexts,
    shapes: &mut Shapes,
    matrix: &Matrix,
) -> Result<(), Fail>
    requires ranks { shapes.old.ranks ≤ 64 }
    requires few { shapes.old.count < 65536 }
    ensures ranks { shapes.new.ranks ≡ shapes.old.ranks }
    ensures count { OnOk result (shapes.new.count ≡ shapes.old.count + 1) }
{
    let grid = contexts.get(i64::from(matrix.ctxt)).ok_or("a grid")?;
    let homes = matrix.homes(alloc, grid)?.ok_or("blocks")?;
    let sizes = matrix.sizes_on_all(alloc, &homes, grid, shapes.ranks())?;
    if sizes.len() != shapes.ranks() as usize || !are_sizes(&sizes) {
        return Err(Fail::from("sizes"));
    }
    shapes.add(&sizes)?;
    Ok(())
}

// The shapes of all arrays.
fn shapes_of(
    alloc: Global,
    ranks: u32,
    contexts: &Contexts,
    matrices: &[Matrix],
) -> Result<Shapes, Fail>
    requires ranks { ranks ≤ 64 }
    requires few { length matrices.now ≤ 64 }
    ensures ranks { IfOk result (λ shapes. shapes.ranks ≡ ranks) }
    ensures count { IfOk result (λ shapes. shapes.count ≡ length matrices.now) }
{
    let mut shapes = Shapes::new(alloc, ranks)?;
    for matrix in matrices {
        add_array(alloc, contexts, &mut shapes, matrix)?;
    }
    Ok(shapes)
}

/// So many ranks with the arrays of these matrices, by number, and no operation.
pub fn begin(
    alloc: Global,
    ranks: u32,
    contexts: Contexts,
    matrices: &[Matrix],
) -> Result<Trial, Fail>
    ensures { IfOk result (λ trial. IsTrial trial) }
{
    if ranks == 0 || ranks > 64 || matrices.len() > 64 {
        return Err(Fail::from("ranks"));
    }
    let shapes = shapes_of(alloc, ranks, &contexts, matrices)?;
    let plan = fresh_plan(alloc, &shapes)?;
    Ok(Trial {
        contexts,
        shapes,
        count: matrices.len() as u32,
        plan,
    })
}

impl Trial {
    /// Appends a move, of a whole shape or of a trapezoid.
    pub fn add_by(
        &mut self,
        alloc: Global,
        letters: Option<(char, char)>,
        args: &MrArgs,
    ) -> Result<Result<Moved, MrErr>, Fail>
        requires { IsTrial self.old }
        ensures { IsTrial self.new }
    {
        if args.a >= self.count || args.b >= self.count {
            return Err(Fail::from("arrays"));
        }
        let planned = match letters {
            None => moved(alloc, &mut self.plan, &self.shapes, &self.contexts, args),
            Some(letters) => {
                part_moved(
                    alloc,
                    &mut self.plan,
                    &self.shapes,
                    &self.contexts,
                    letters,
                    args,
                )
            }
        };
        Ok(planned.ok_or("shapes")?)
    }

    /// Appends the move of a case from array `a` to array `b`.
    pub fn add(
        &mut self,
        alloc: Global,
        case: &Case,
        a: u32,
        b: u32,
    ) -> Result<Result<Moved, MrErr>, Fail>
        requires { IsTrial self.old }
        ensures { IsTrial self.new }
    {
        let args = case.args(alloc, &self.contexts, a, b)?;
        self.add_by(alloc, case.letters, &args)
    }

    /// The same so many times, and whether none of them was refused.
    pub fn add_often(
        &mut self,
        alloc: Global,
        case: &Case,
        a: u32,
        b: u32,
        times: u32,
    ) -> Result<bool, Fail>
        requires { IsTrial self.old }
        ensures { IsTrial self.new }
    {
        for _ in 0..times {
            if self.add(alloc, case, a, b)?.is_err() {
                return Ok(false);
            }
        }
        Ok(true)
    }

    /// The number of operations.
    pub fn ops(&self) -> u32 {
        self.plan.len()
    }

    /// The words of all messages.
    pub fn words(&self) -> u64 {
        self.plan.words()
    }

    /// Memories of all ranks, with a formula for the words of each array.
    pub fn memories(&self, alloc: Global, fills: &[Fill]) -> Result<Vec<RankMem>, Fail>
        requires { IsTrial self.now }
        ensures { IfOk result (λ nodes. HasShapes self.now.shapes (first_grid nodes.items)) }
    {
        if fills.len() != self.count as usize {
            return Err(Fail::from("fills"));
        }
        all_memories(alloc, &self.shapes, fills, self.count)
    }

    /// The plan with these memories, ready to run.
    pub fn ready(
        self,
        alloc: Global,
        nodes: Vec<RankMem>,
    ) -> Result<(Contexts, Stage<RankMem>), Fail>
        requires trial { IsTrial self }
        requires nodes { HasShapes self.shapes (first_grid nodes.items) }
    {
        let Trial {
            contexts,
            shapes: _,
            count: _,
            plan,
        } = self;
        if plan.words() > 67_108_864 {
            return Err(Fail::from("words"));
        }
        match Stage::prepare(alloc, plan, nodes) {
            Ok(stage) => Ok((contexts, stage)),
            Err(StageErr { plan: _, nodes: _ }) => Err(Fail::from("memory")),
        }
    }

    /// The same, from arrays filled by a formula each.
    pub fn staged(self, alloc: Global, fills: &[Fill]) -> Result<(Contexts, Stage<RankMem>), Fail>
        requires { IsTrial self }
    {
        let nodes = self.memories(alloc, fills)?;
        self.ready(alloc, nodes)
    }
}

/// The memories after the plan in its order, or by the schedule that a seed draws.
pub fn run(stage: Stage<RankMem>, seed: Option<u64>) -> Vec<RankMem> {
    match seed {
        None => stage.run_in_order(),
        Some(seed) => stage.run_schedule(&mut SeedPicks::new(seed)).0,
    }
}
