//! Broadcasts, combines and barriers.

ghost use Rattle.std.specs.Prelude.{◌≡◌, ◌<◌, ◌-◌, ◌*◌, None, length, pos, OnOk};
ghost use Rattle.route_tree.specs.Parents.{HasBranches};
ghost use Rattle.pack_words.specs.declared.fold_kind.FoldKind.TheVariants.{Sum};
ghost use Rattle.pack_words.specs.GridState.{GridState};
ghost use Rattle.pack_words.specs.GridPlans.{IsOf};
ghost use Rattle.scope_ops.specs.Calls.{IsKept, IsScopeQuiet, IsBroadcastMade, IsCombineMade};
ghost use Rattle.scope_ops.specs.CombineOps.{AreThere};
ghost use Rattle.scope_ops.specs.Refusals.{AreOfOneWorld, IsAnswer};
ghost use Rattle.scope_ops.specs.Scopes.{broadcast_fault};
ghost use Rattle.scope_ops.specs.CombineRefusals.{combine_fault};
ghost use Rattle.program_meaning.specs.ProgramState.{grid_at};
ghost use Rattle.program_meaning.specs.Exchanges.{exchanged, shape_in, place_of_part, broadcast_exchange, combine_exchange, barrier_exchange};
ghost use Rattle.line_plans.specs.Standing.{state_of, IsExchanged};

use crate::declared::Declared;
use crate::halt::Halt;
use crate::quiet::check_scope;
use crate::settled::settled;
use msg_core::Plan;
use pack_words::{Diag, FoldKind, RankOp, Shapes, Uplo};
use proc_grid::{Context, Scope};
use route_tree::Top;
use scope_ops::{Part, ScopeErr, Spot, barrier, igamn2d, igamx2d, igebs2d, igsum2d, itrbs2d};
use std::alloc::Global;

// The call of a BCAST line, of the whole part or of a trapezoid, to the same place of every member.
fn call_broadcast(
    alloc: Global,
    plan: &mut Plan<RankOp>,
    shapes: &Shapes,
    ctx: &Context,
    scope: Scope,
    top: Top,
    tri: Option<(Uplo, Diag)>,
    part: &Part,
    src: (u32, u32),
) -> Result<(), ScopeErr>
    requires world { AreOfOneWorld plan.old shapes.now ctx.now }
    requires array { part.now.array < shapes.now.count }
    requires quiet { IsScopeQuiet plan.old ctx.now scope }
    requires top { HasBranches top }
    ensures fault { IsAnswer result (broadcast_fault (length plan.old.steps) shapes.now ctx.now scope part.now src (place_of_part part.now)) }
    ensures ok { OnOk result (IsBroadcastMade shapes.now plan.old plan.new ctx.now scope (shape_in tri) part.now src (place_of_part part.now)) }
    ensures kept { IsKept result plan.old plan.new }
{
    let place = Spot {
        array: part.array,
        i: part.i,
        j: part.j,
    };
    match tri {
        Some((uplo, diag)) => itrbs2d(
            alloc, plan, shapes, ctx, scope, top, uplo, diag, part, src, &place,
        ),
        None => igebs2d(alloc, plan, shapes, ctx, scope, top, part, src, &place),
    }
}

/// BCAST: the source's part to the same part of every other member.
pub(crate) fn plan_broadcast(
    alloc: Global,
    declared: &Declared,
    plan: &mut Plan<RankOp>,
    grid: u32,
    scope: Scope,
    top: Top,
    tri: Option<(Uplo, Diag)>,
    part: &Part,
    src: (u32, u32),
) -> Result<(), Halt>
    requires world { declared.now.shapes.ranks ≡ plan.old.ranks }
    requires grid { grid < length declared.now.contexts }
    requires array { part.now.array < declared.now.shapes.count }
    requires top { HasBranches top }
    ensures ranks { plan.new.ranks ≡ plan.old.ranks }
    ensures done { (state : GridState) → IsOf declared.now.shapes plan.old state →
        let s = state_of declared.now plan.old state in
        IsExchanged result declared.now plan.old plan.new state
        (exchanged s (broadcast_exchange s (grid_at s (pos grid)) scope (shape_in tri) part.now src)) }
{
    let ctx = declared.grid(grid);
    if let Err(halt) = check_scope(alloc, plan, ctx, scope) {
        return Err(halt);
    }
    let called = call_broadcast(
        alloc,
        plan,
        &declared.shapes,
        ctx,
        scope,
        top,
        tri,
        part,
        src,
    );
    settled(called, declared, plan)
}

// The call of a SUM, AMX or AMN line.
fn call_combine(
    alloc: Global,
    plan: &mut Plan<RankOp>,
    shapes: &Shapes,
    ctx: &Context,
    scope: Scope,
    top: Top,
    fold: FoldKind,
    part: &Part,
    rc: Option<(u32, u32)>,
    dest: Option<(u32, u32)>,
) -> Result<(), ScopeErr>
    requires world { AreOfOneWorld plan.old shapes.now ctx.now }
    requires arrays { AreThere shapes.now part.now rc }
    requires sum { fold ≡ Sum → rc ≡ None }
    requires quiet { IsScopeQuiet plan.old ctx.now scope }
    requires top { HasBranches top }
    ensures fault { IsAnswer result (combine_fault (length plan.old.steps) shapes.now ctx.now scope dest part.now rc) }
    ensures ok { OnOk result (IsCombineMade shapes.now plan.old plan.new ctx.now scope fold part.now rc dest) }
    ensures kept { IsKept result plan.old plan.new }
{
    match fold {
        FoldKind::Sum => igsum2d(alloc, plan, shapes, ctx, scope, top, part, dest),
        FoldKind::AbsMax => igamx2d(alloc, plan, shapes, ctx, scope, top, part, rc, dest),
        FoldKind::AbsMin => igamn2d(alloc, plan, shapes, ctx, scope, top, part, rc, dest),
    }
}

/// SUM, AMX and AMN: the fold over the members, to one destination or to all.
pub(crate) fn plan_combine(
    alloc: Global,
    declared: &Declared,
    plan: &mut Plan<RankOp>,
    grid: u32,
    scope: Scope,
    top: Top,
    fold: FoldKind,
    part: &Part,
    rc: Option<(u32, u32)>,
    dest: Option<(u32, u32)>,
) -> Result<(), Halt>
    requires world { declared.now.shapes.ranks ≡ plan.old.ranks }
    requires grid { grid < length declared.now.contexts }
    requires arrays { AreThere declared.now.shapes part.now rc }
    requires sum { fold ≡ Sum → rc ≡ None }
    requires top { HasBranches top }
    ensures ranks { plan.new.ranks ≡ plan.old.ranks }
    ensures done { (state : GridState) → IsOf declared.now.shapes plan.old state →
        let s = state_of declared.now plan.old state in
        IsExchanged result declared.now plan.old plan.new state
        (exchanged s (combine_exchange s (grid_at s (pos grid)) scope fold dest part.now rc)) }
{
    let ctx = declared.grid(grid);
    if let Err(halt) = check_scope(alloc, plan, ctx, scope) {
        return Err(halt);
    }
    let called = call_combine(
        alloc,
        plan,
        &declared.shapes,
        ctx,
        scope,
        top,
        fold,
        part,
        rc,
        dest,
    );
    settled(called, declared, plan)
}

/// BARRIER: no array is changed.
pub(crate) fn plan_barrier(
    alloc: Global,
    declared: &Declared,
    plan: &mut Plan<RankOp>,
    grid: u32,
    scope: Scope,
) -> Result<(), Halt>
    requires world { declared.now.shapes.ranks ≡ plan.old.ranks }
    requires grid { grid < length declared.now.contexts }
    ensures ranks { plan.new.ranks ≡ plan.old.ranks }
    ensures done { (state : GridState) → IsOf declared.now.shapes plan.old state →
        let s = state_of declared.now plan.old state in
        IsExchanged result declared.now plan.old plan.new state (exchanged s (barrier_exchange s (grid_at s (pos grid)) scope)) }
{
    let ctx = declared.grid(grid);
    if let Err(halt) = check_scope(alloc, plan, ctx, scope) {
        return Err(halt);
    }
    let called = barrier(alloc, plan, &declared.shapes, ctx, scope);
    settled(called, declared, plan)
}
