//! Combines of a scope. A User's Guide to the BLACS, IGSUM2D, IGAMX2D and IGAMN2D.

ghost use Rattle.std.specs.Prelude.{◌≡◌, ◌<◌, None, length, OnOk};
ghost use Rattle.route_tree.specs.Parents.{HasBranches};
ghost use Rattle.pack_words.specs.declared.fold_kind.FoldKind.TheVariants.{Sum, AbsMax, AbsMin};
ghost use Rattle.scope_ops.specs.Calls.{IsCombineMade, IsKept, IsScopeQuiet};
ghost use Rattle.scope_ops.specs.CombineOps.{AreThere, AreAskable, IsAlong, coords_of};
ghost use Rattle.scope_ops.specs.CombineRefusals.{combine_fault};
ghost use Rattle.scope_ops.specs.Refusals.{AreOfOneWorld, IsAnswer};

use crate::arrays::check_arrays;
use crate::gather::{Gather, push_gather};
use crate::part::Part;
use crate::scope_err::ScopeErr;
use crate::scopes::{listed, root_place};
use msg_core::Plan;
use pack_words::{Coords, FoldKind, RankOp, Shapes};
use proc_grid::{Context, Scope};
use route_tree::Top;
use std::alloc::Global;

// How the positions of the scope stand for rows and columns of the grid, where RA and CA are asked for.
fn coords_of(ctx: &Context, scope: Scope, rc: Option<(u32, u32)>) -> Option<Coords>
    ensures { result ≡ coords_of scope ctx.now.npcol rc }
{
    match rc {
        Some((ra, ca)) => Some(Coords {
            ra,
            ca,
            scope,
            npcol: ctx.npcol(),
        }),
        None => None,
    }
}

// The fold of every member's part, to one destination or to all.
fn combine(
    alloc: Global,
    plan: &mut Plan<RankOp>,
    shapes: &Shapes,
    ctx: &Context,
    scope: Scope,
    top: Top,
    fold: FoldKind,
    part: &Part,
    rc: Option<(u32, u32)>,
    dest: Option<(u32, u32)>,
) -> Result<(), ScopeErr>
    requires world { AreOfOneWorld plan.old shapes.now ctx.now }
    requires arrays { AreThere shapes.now part.now rc }
    requires ask { AreAskable fold rc }
    requires top { HasBranches top }
    requires quiet { IsScopeQuiet plan.old ctx.now scope }
    ensures fault { IsAnswer result (combine_fault (length plan.old.steps) shapes.now ctx.now scope dest part.now rc) }
    ensures ok { OnOk result (IsCombineMade shapes.now plan.old plan.new ctx.now scope fold part.now rc dest) }
    ensures along { OnOk result (IsAlong plan.old plan.new ctx.now scope top fold part.now rc dest) }
    ensures kept { IsKept result plan.old plan.new }
{
    let (ranks, root) = match listed(alloc, shapes, ctx, scope, root_place(scope, dest)) {
        Ok(found) => found,
        Err(e) => return Err(e),
    };
    let members: &[u32] = &ranks;
    if let Err(e) = check_arrays(shapes, members, part, rc) {
        return Err(e);
    }
    let gather = Gather {
        fold,
        part: *part,
        coords: coords_of(ctx, scope, rc),
    };
    push_gather(alloc, plan, members, root, top, &gather, dest)
}

/// Every element of each destination's part gets the sum, modulo 2^32 in two's complement, of the members' elements
/// there. The destination is the process at `dest`, or every member where that is None (RDEST = -1). It never answers
/// SameArray, BadRcLead, NoMessage or WrongLength. A User's Guide to the BLACS, IGSUM2D.
pub fn igsum2d(
    alloc: Global,
    plan: &mut Plan<RankOp>,
    shapes: &Shapes,
    ctx: &Context,
    scope: Scope,
    top: Top,
    part: &Part,
    dest: Option<(u32, u32)>,
) -> Result<(), ScopeErr>
    requires world { AreOfOneWorld plan.old shapes.now ctx.now }
    requires array { part.now.array < shapes.now.count }
    requires top { HasBranches top }
    requires quiet { IsScopeQuiet plan.old ctx.now scope }
    ensures fault { IsAnswer result (combine_fault (length plan.old.steps) shapes.now ctx.now scope dest part.now None) }
    ensures ok { OnOk result (IsCombineMade shapes.now plan.old plan.new ctx.now scope Sum part.now None dest) }
    ensures along { OnOk result (IsAlong plan.old plan.new ctx.now scope top Sum part.now None dest) }
    ensures kept { IsKept result plan.old plan.new }
{
    combine(
        alloc,
        plan,
        shapes,
        ctx,
        scope,
        top,
        FoldKind::Sum,
        part,
        None,
        dest,
    )
}

/// Every element of each destination's part gets the members' word of greatest absolute value there, with its sign; of
/// two with one absolute value that of the earlier member in scope order. Absolute values are whole numbers. Where `rc`
/// names the arrays RA and CA, these get at their upper left corner the row and the column in the grid of the process
/// that held the word; None stands for RCFLAG = -1. `dest` is as in `igsum2d`. It never answers NoMessage or
/// WrongLength. A User's Guide to the BLACS, IGAMX2D.
pub fn igamx2d(
    alloc: Global,
    plan: &mut Plan<RankOp>,
    shapes: &Shapes,
    ctx: &Context,
    scope: Scope,
    top: Top,
    part: &Part,
    rc: Option<(u32, u32)>,
    dest: Option<(u32, u32)>,
) -> Result<(), ScopeErr>
    requires world { AreOfOneWorld plan.old shapes.now ctx.now }
    requires arrays { AreThere shapes.now part.now rc }
    requires top { HasBranches top }
    requires quiet { IsScopeQuiet plan.old ctx.now scope }
    ensures fault { IsAnswer result (combine_fault (length plan.old.steps) shapes.now ctx.now scope dest part.now rc) }
    ensures ok { OnOk result (IsCombineMade shapes.now plan.old plan.new ctx.now scope AbsMax part.now rc dest) }
    ensures along { OnOk result (IsAlong plan.old plan.new ctx.now scope top AbsMax part.now rc dest) }
    ensures kept { IsKept result plan.old plan.new }
{
    combine(
        alloc,
        plan,
        shapes,
        ctx,
        scope,
        top,
        FoldKind::AbsMax,
        part,
        rc,
        dest,
    )
}

/// As `igamx2d`, of the least absolute value. A User's Guide to the BLACS, IGAMN2D.
pub fn igamn2d(
    alloc: Global,
    plan: &mut Plan<RankOp>,
    shapes: &Shapes,
    ctx: &Context,
    scope: Scope,
    top: Top,
    part: &Part,
    rc: Option<(u32, u32)>,
    dest: Option<(u32, u32)>,
) -> Result<(), ScopeErr>
    requires world { AreOfOneWorld plan.old shapes.now ctx.now }
    requires arrays { AreThere shapes.now part.now rc }
    requires top { HasBranches top }
    requires quiet { IsScopeQuiet plan.old ctx.now scope }
    ensures fault { IsAnswer result (combine_fault (length plan.old.steps) shapes.now ctx.now scope dest part.now rc) }
    ensures ok { OnOk result (IsCombineMade shapes.now plan.old plan.new ctx.now scope AbsMin part.now rc dest) }
    ensures along { OnOk result (IsAlong plan.old plan.new ctx.now scope top AbsMin part.now rc dest) }
    ensures kept { IsKept result plan.old plan.new }
{
    combine(
        alloc,
        plan,
        shapes,
        ctx,
        scope,
        top,
        FoldKind::AbsMin,
        part,
        rc,
        dest,
    )
}
