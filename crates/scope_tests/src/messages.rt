//! Trials of messages between two processes.

ghost use Rattle.std.specs.Prelude.{◌≡◌, ◌<◌, [], OnOk};
ghost use Rattle.pack_words.specs.GridState.{GridState};
ghost use Rattle.pack_words.specs.GridPlans.{Appends};
ghost use Rattle.scope_ops.specs.Refusals.{AreOfOneWorld};

use crate::memories::Fill;
use crate::trial::{Outcome, Trial, run};
use crate::trouble::Trouble;
use msg_core::Plan;
use pack_words::{Diag, RankOp, Shapes, Uplo};
use proc_grid::{Context, Scope, scope_members};
use route_tree::Top;
use scope_ops::{Part, ScopeErr, igerv2d, igesd2d, igsum2d, itrrv2d, itrsd2d};
use std::alloc::Global;

/// One side of a message: a process, its part, of which the whole or a trapezoid is meant, and the other process.
#[derive(Clone, Copy)]
pub struct Side {
    pub me: (u32, u32),
    pub part: Part,
    pub trapezoid: Option<(Uplo, Diag)>,
    pub peer: (u32, u32),
}

fn send(
    alloc: Global,
    plan: &mut Plan<RankOp>,
    shapes: &Shapes,
    ctx: &Context,
    side: &Side,
) -> Result<(), ScopeErr>
    requires world { AreOfOneWorld plan.old shapes.now ctx.now }
    requires array { side.now.part.array < shapes.now.count }
    ensures appends { OnOk result ((f : GridState → GridState) × Appends shapes.now plan.old plan.new f) }
    ensures ranks { plan.new.ranks ≡ plan.old.ranks }
{
    match side.trapezoid {
        Some((uplo, diag)) => {
            itrsd2d(
                alloc, plan, shapes, ctx, side.me, uplo, diag, &side.part, side.peer,
            )
        }
        None => igesd2d(alloc, plan, shapes, ctx, side.me, &side.part, side.peer),
    }
}

fn receive(
    alloc: Global,
    plan: &mut Plan<RankOp>,
    shapes: &Shapes,
    ctx: &Context,
    side: &Side,
) -> Result<(), ScopeErr>
    requires world { AreOfOneWorld plan.old shapes.now ctx.now }
    requires array { side.now.part.array < shapes.now.count }
    ensures appends { OnOk result ((f : GridState → GridState) × Appends shapes.now plan.old plan.new f) }
    ensures ranks { plan.new.ranks ≡ plan.old.ranks }
{
    match side.trapezoid {
        Some((uplo, diag)) => {
            itrrv2d(
                alloc, plan, shapes, ctx, side.me, uplo, diag, &side.part, side.peer,
            )
        }
        None => igerv2d(alloc, plan, shapes, ctx, side.me, &side.part, side.peer),
    }
}

/// The arrays after one process sent and another received.
pub fn exchange(
    alloc: Global,
    trial: Trial,
    fill: &Fill,
    sent: &Side,
    got: &Side,
) -> Result<Outcome, Trouble>
    requires world { AreOfOneWorld trial.plan trial.shapes trial.ctx }
    requires count { trial.count ≡ trial.shapes.count }
    requires empty { trial.plan.steps ≡ [] }
{
    let Trial {
        ctx,
        shapes,
        count,
        mut plan,
    } = trial;
    if sent.part.array >= count || got.part.array >= count {
        return Err(Trouble::Case);
    }
    send(alloc, &mut plan, &shapes, &ctx, sent)?;
    receive(alloc, &mut plan, &shapes, &ctx, got)?;
    run(alloc, plan, &shapes, count, fill)
}

/// What refuses a receive where nothing was sent.
pub fn unsent(alloc: Global, trial: Trial, got: &Side) -> Result<(), Trouble>
    requires world { AreOfOneWorld trial.plan trial.shapes trial.ctx }
    requires count { trial.count ≡ trial.shapes.count }
{
    let Trial {
        ctx,
        shapes,
        count,
        mut plan,
    } = trial;
    if got.part.array >= count {
        return Err(Trouble::Case);
    }
    receive(alloc, &mut plan, &shapes, &ctx, got)?;
    Ok(())
}

/// A plan that is full but for one operation, by messages of a process to itself; then a sum of the whole grid, which has
/// one process, and two messages more: how many operations there are, and what was answered.
pub fn crowded(
    alloc: Global,
    trial: Trial,
    side: &Side,
) -> Result<(u32, [Option<ScopeErr>; 3]), Trouble>
    requires world { AreOfOneWorld trial.plan trial.shapes trial.ctx }
    requires count { trial.count ≡ trial.shapes.count }
{
    let Trial {
        ctx,
        shapes,
        count,
        mut plan,
    } = trial;
    if side.part.array >= count || scope_members(alloc, &ctx, Scope::All)?.len() != 1 {
        return Err(Trouble::Case);
    }
    for _ in 0..1_048_575 {
        send(alloc, &mut plan, &shapes, &ctx, side)?;
    }
    let sum = igsum2d(
        alloc,
        &mut plan,
        &shapes,
        &ctx,
        Scope::All,
        Top::H,
        &side.part,
        Some(side.me),
    );
    let last = send(alloc, &mut plan, &shapes, &ctx, side);
    let more = send(alloc, &mut plan, &shapes, &ctx, side);
    Ok((plan.len(), [sum.err(), last.err(), more.err()]))
}
