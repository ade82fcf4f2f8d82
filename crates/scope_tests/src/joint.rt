//! Trials of the calls that the members of a scope make together.

ghost use Rattle.std.specs.Prelude.{◌≡◌, [], OnOk};
ghost use Rattle.route_tree.specs.Parents.{HasBranches};
ghost use Rattle.pack_words.specs.GridState.{GridState};
ghost use Rattle.pack_words.specs.GridPlans.{PlanMeans};
ghost use Rattle.scope_ops.specs.Refusals.{AreOfOneWorld};
ghost use Rattle.scope_tests.specs.Numbers.{are_numbers};

use crate::memories::Fill;
use crate::trial::{Outcome, Trial, run};
use crate::trouble::Trouble;
use msg_core::Plan;
use pack_words::{Diag, RankOp, Shapes, Uplo};
use proc_grid::{Context, Scope};
use route_tree::Top;
use scope_ops::{Part, Spot, barrier, igamn2d, igamx2d, igebs2d, igsum2d, itrbs2d};
use std::alloc::Global;

/// What the members of a scope do with a part, and with RA and CA.
#[derive(Clone, Copy)]
pub enum Joint {
    Sum {
        dest: Option<(u32, u32)>,
    },
    Greatest {
        rc: Option<(u32, u32)>,
        dest: Option<(u32, u32)>,
    },
    Least {
        rc: Option<(u32, u32)>,
        dest: Option<(u32, u32)>,
    },
    Broadcast {
        src: (u32, u32),
        rcv: Spot,
    },
    Trapezoid {
        uplo: Uplo,
        diag: Diag,
        src: (u32, u32),
        rcv: Spot,
    },
    Barrier,
}

// Whether the part's array, RA and CA are there.
fn are_there(count: u32, part: &Part, rc: Option<(u32, u32)>) -> bool
    ensures { result ≡ are_numbers count part.now.array rc }
{
    match rc {
        Some((ra, ca)) => part.array < count && ra < count && ca < count,
        None => part.array < count,
    }
}

/// The call, on an empty plan.
pub fn plan_joint(
    alloc: Global,
    plan: &mut Plan<RankOp>,
    shapes: &Shapes,
    ctx: &Context,
    count: u32,
    scope: Scope,
    top: Top,
    part: &Part,
    joint: Joint,
) -> Result<(), Trouble>
    requires world { AreOfOneWorld plan.old shapes.now ctx.now }
    requires count { count ≡ shapes.now.count }
    requires top { HasBranches top }
    requires empty { plan.old.steps ≡ [] }
    ensures means { OnOk result ((f : GridState → GridState) × PlanMeans shapes.now plan.new f) }
    ensures ranks { plan.new.ranks ≡ plan.old.ranks }
{
    match joint {
        Joint::Sum { dest } if are_there(count, part, None) => {
            igsum2d(alloc, plan, shapes, ctx, scope, top, part, dest)?;
        }
        Joint::Greatest { rc, dest } if are_there(count, part, rc) => {
            igamx2d(alloc, plan, shapes, ctx, scope, top, part, rc, dest)?;
        }
        Joint::Least { rc, dest } if are_there(count, part, rc) => {
            igamn2d(alloc, plan, shapes, ctx, scope, top, part, rc, dest)?;
        }
        Joint::Broadcast { src, rcv } if part.array < count && rcv.array < count => {
            igebs2d(alloc, plan, shapes, ctx, scope, top, part, src, &rcv)?;
        }
        Joint::Trapezoid {
            uplo,
            diag,
            src,
            rcv,
        } if part.array < count && rcv.array < count => {
            itrbs2d(
                alloc, plan, shapes, ctx, scope, top, uplo, diag, part, src, &rcv,
            )?;
        }
        Joint::Barrier => barrier(alloc, plan, shapes, ctx, scope)?,
        _ => return Err(Trouble::Case),
    }
    Ok(())
}

/// The arrays after one call of a scope, along the topology of a letter.
pub fn run_joint(
    alloc: Global,
    trial: Trial,
    fill: &Fill,
    scope: Scope,
    letter: char,
    part: &Part,
    joint: Joint,
) -> Result<Outcome, Trouble>
    requires world { AreOfOneWorld trial.plan trial.shapes trial.ctx }
    requires count { trial.count ≡ trial.shapes.count }
    requires empty { trial.plan.steps ≡ [] }
{
    let Trial {
        ctx,
        shapes,
        count,
        mut plan,
    } = trial;
    let Some(top) = Top::read(letter) else {
        return Err(Trouble::Case);
    };
    plan_joint(
        alloc, &mut plan, &shapes, &ctx, count, scope, top, part, joint,
    )?;
    run(alloc, plan, &shapes, count, fill)
}
