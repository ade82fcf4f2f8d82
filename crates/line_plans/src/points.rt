//! Messages from one process to another.

ghost use Rattle.std.specs.Prelude.{◌≡◌, ◌<◌, pos, length, OnOk};
ghost use Rattle.msg_core.specs.Plans.{waiting_lens};
ghost use Rattle.proc_grid.specs.Grid.{rank_of};
ghost use Rattle.pack_words.specs.GridState.{GridState, rank_steps};
ghost use Rattle.pack_words.specs.GridPlans.{IsOf};
ghost use Rattle.scope_ops.specs.Calls.{IsMade, IsKept};
ghost use Rattle.scope_ops.specs.Lines.{sent_line, received_line};
ghost use Rattle.scope_ops.specs.Refusals.{AreOfOneWorld, IsAnswer, send_fault, receive_fault, part_count};
ghost use Rattle.program_meaning.specs.ProgramState.{grid_at};
ghost use Rattle.program_meaning.specs.Exchanges.{exchanged, shape_in, send_exchange, receive_exchange};
ghost use Rattle.line_plans.specs.Standing.{state_of, IsExchanged};

use crate::declared::Declared;
use crate::halt::Halt;
use crate::settled::settled;
use msg_core::Plan;
use pack_words::{Diag, RankOp, Shapes, Uplo};
use proc_grid::Context;
use scope_ops::{Part, ScopeErr, igerv2d, igesd2d, itrrv2d, itrsd2d};
use std::alloc::Global;

// The call of a SEND line, of the whole part or of a trapezoid.
fn call_send(
    alloc: Global,
    plan: &mut Plan<RankOp>,
    shapes: &Shapes,
    ctx: &Context,
    me: (u32, u32),
    tri: Option<(Uplo, Diag)>,
    part: &Part,
    dest: (u32, u32),
) -> Result<(), ScopeErr>
    requires world { AreOfOneWorld plan.old shapes.now ctx.now }
    requires array { part.now.array < shapes.now.count }
    ensures fault { IsAnswer result (send_fault (length plan.old.steps) shapes.now ctx.now me part.now dest) }
    ensures ok { OnOk result (IsMade shapes.now plan.old plan.new
        (sent_line (rank_of ctx.now me) (rank_of ctx.now dest) (shape_in tri) part.now) 1 1 (part_count (shape_in tri) part.now)) }
    ensures kept { IsKept result plan.old plan.new }
{
    match tri {
        Some((uplo, diag)) => itrsd2d(alloc, plan, shapes, ctx, me, uplo, diag, part, dest),
        None => igesd2d(alloc, plan, shapes, ctx, me, part, dest),
    }
}

// The call of a RECV line.
fn call_receive(
    alloc: Global,
    plan: &mut Plan<RankOp>,
    shapes: &Shapes,
    ctx: &Context,
    me: (u32, u32),
    tri: Option<(Uplo, Diag)>,
    part: &Part,
    src: (u32, u32),
) -> Result<(), ScopeErr>
    requires world { AreOfOneWorld plan.old shapes.now ctx.now }
    requires array { part.now.array < shapes.now.count }
    ensures fault { IsAnswer result (receive_fault (length plan.old.steps) (waiting_lens rank_steps plan.old) shapes.now
        ctx.now me (shape_in tri) part.now src) }
    ensures ok { OnOk result (IsMade shapes.now plan.old plan.new
        (received_line (rank_of ctx.now src) (rank_of ctx.now me) (shape_in tri) part.now) 1 0 0) }
    ensures kept { IsKept result plan.old plan.new }
{
    match tri {
        Some((uplo, diag)) => itrrv2d(alloc, plan, shapes, ctx, me, uplo, diag, part, src),
        None => igerv2d(alloc, plan, shapes, ctx, me, part, src),
    }
}

/// SEND: the process at `me` sends its part to the one at `dest`.
pub(crate) fn plan_send(
    alloc: Global,
    declared: &Declared,
    plan: &mut Plan<RankOp>,
    grid: u32,
    me: (u32, u32),
    tri: Option<(Uplo, Diag)>,
    part: &Part,
    dest: (u32, u32),
) -> Result<(), Halt>
    requires world { declared.now.shapes.ranks ≡ plan.old.ranks }
    requires grid { grid < length declared.now.contexts }
    requires array { part.now.array < declared.now.shapes.count }
    ensures ranks { plan.new.ranks ≡ plan.old.ranks }
    ensures done { (state : GridState) → IsOf declared.now.shapes plan.old state →
        let s = state_of declared.now plan.old state in
        IsExchanged result declared.now plan.old plan.new state
        (exchanged s (send_exchange s (grid_at s (pos grid)) me (shape_in tri) part.now dest)) }
{
    let ctx = declared.grid(grid);
    let called = call_send(alloc, plan, &declared.shapes, ctx, me, tri, part, dest);
    settled(called, declared, plan)
}

/// RECV: the process at `me` takes the first message from the one at `src` into its part.
pub(crate) fn plan_receive(
    alloc: Global,
    declared: &Declared,
    plan: &mut Plan<RankOp>,
    grid: u32,
    me: (u32, u32),
    tri: Option<(Uplo, Diag)>,
    part: &Part,
    src: (u32, u32),
) -> Result<(), Halt>
    requires world { declared.now.shapes.ranks ≡ plan.old.ranks }
    requires grid { grid < length declared.now.contexts }
    requires array { part.now.array < declared.now.shapes.count }
    ensures ranks { plan.new.ranks ≡ plan.old.ranks }
    ensures done { (state : GridState) → IsOf declared.now.shapes plan.old state →
        let s = state_of declared.now plan.old state in
        IsExchanged result declared.now plan.old plan.new state
        (exchanged s (receive_exchange s (grid_at s (pos grid)) me (shape_in tri) part.now src)) }
{
    let ctx = declared.grid(grid);
    let called = call_receive(alloc, plan, &declared.shapes, ctx, me, tri, part, src);
    settled(called, declared, plan)
}
