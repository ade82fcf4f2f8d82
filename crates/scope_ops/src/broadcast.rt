//! Broadcasts of a scope. A User's Guide to the BLACS, IGEBS2D, IGEBR2D, ITRBS2D and ITRBR2D.

ghost use Rattle.std.specs.Prelude.{◌≡◌, ◌<◌, ◌≤◌, ◌+◌, ◌-◌, ◌*◌, [], ◌∷◌, ◌++◌, length, OnOk, OnErr};
ghost use Rattle.msg_core.specs.Plans.{waiting_lens};
ghost use Rattle.route_tree.specs.Parents.{HasBranches};
ghost use Rattle.route_tree.specs.Routes.{IsRoute};
ghost use Rattle.pack_words.specs.declared.shape.Shape.TheVariants.{Ge, Tr};
ghost use Rattle.pack_words.specs.GridState.{rank_steps};
ghost use Rattle.scope_ops.specs.Calls.{IsBroadcastMade, IsBroadcastAlong, IsKept, IsScopeQuiet};
ghost use Rattle.scope_ops.specs.Refusals.{AreOfOneWorld, IsAnswer, many_fault};
ghost use Rattle.scope_ops.specs.Ops.{IsGoodPart, put_of, get_of};
ghost use Rattle.scope_ops.specs.Parts.{part_from, cut_of};
ghost use Rattle.scope_ops.specs.Broadcasts.{part_sent, edge_ops, AreMembers, IsQuiet, IsRouted};
ghost use Rattle.scope_ops.specs.Scopes.{broadcast_fault};

use crate::part::{Part, Spot};
use crate::pushes::{push_get, push_put, refused};
use crate::scope_err::ScopeErr;
use crate::scopes::{listed, members_fit, part_of};
use msg_core::Plan;
use pack_words::{Diag, RankOp, Shape, Shapes, Uplo};
use proc_grid::{Context, Scope};
use route_tree::{Top, route};
use std::alloc::Global;

// One rank sends a part and another receives it at once, where the room is there and no message of the pair waits.
fn push_edge(plan: &mut Plan<RankOp>, from: u32, to: u32, shape: Shape, sent: &Part, target: &Part)
    requires sent { IsGoodPart shape sent.now }
    requires target { IsGoodPart shape target.now }
    requires size { cut_of shape sent.now ≡ cut_of shape target.now }
    requires from { from < plan.old.ranks }
    requires to { to < plan.old.ranks }
    requires quiet { waiting_lens rank_steps plan.old from to ≡ [] }
    requires room { 2 ≤ plan.old.room }
    requires few { length plan.old.steps + 2 ≤ 1048576 }
    ensures steps { plan.new.steps ≡ plan.old.steps ++
        (from, put_of to shape sent.now) ∷ (to, get_of from shape target.now) ∷ [] }
    ensures ranks { plan.new.ranks ≡ plan.old.ranks }
    ensures room { plan.old.room ≤ plan.new.room + 2 }
{
    let Ok(()) = push_put(plan, from, to, shape, sent) else {
        unreachable!()
    };
    let Ok(()) = push_get(plan, from, to, shape, target) else {
        unreachable!()
    };
}

// Along each edge one member sends its part and the other receives; the room is there and no message of the scope waits.
fn push_edges(
    plan: &mut Plan<RankOp>,
    members: &[u32],
    edges: &[(u32, u32)],
    source: u32,
    shape: Shape,
    part: &Part,
    rcv: &Spot,
)
    requires part { IsGoodPart shape part.now }
    requires target { 0 < length edges.now → IsGoodPart shape (part_from rcv.now part.now) }
    requires members { AreMembers plan.old.ranks members.now }
    requires route { IsRoute (length members.now) source edges.now }
    requires quiet { IsQuiet plan.old members.now }
    requires room { 2 * length edges.now ≤ plan.old.room }
    requires few { length plan.old.steps + 2 * length edges.now ≤ 1048576 }
    ensures steps { plan.new.steps ≡ plan.old.steps ++ edge_ops members.now source shape part.now rcv.now edges.now }
    ensures ranks { plan.new.ranks ≡ plan.old.ranks }
{
    let target = rcv.part(part);
    for edge in edges {
        let from = members[edge.0 as usize];
        let to = members[edge.1 as usize];
        let sent = part_of(source, part, rcv, edge.0);
        push_edge(plan, from, to, shape, &sent, &target);
    }
}

// The operations of a broadcast along a route from the source.
fn push_route(
    alloc: Global,
    plan: &mut Plan<RankOp>,
    members: &[u32],
    source: u32,
    top: Top,
    shape: Shape,
    part: &Part,
    rcv: &Spot,
) -> Result<(), ScopeErr>
    requires source { source < length members.now }
    requires few { length members.now ≤ 64 }
    requires members { AreMembers plan.old.ranks members.now }
    requires top { HasBranches top }
    requires quiet { IsQuiet plan.old members.now }
    requires part { IsGoodPart shape part.now }
    requires target { 1 < length members.now → IsGoodPart shape (part_from rcv.now part.now) }
    ensures fault { IsAnswer result (many_fault (length plan.old.steps) (2 * (length members.now - 1))) }
    ensures ok { OnOk result (IsRouted plan.old plan.new top members.now source shape part.now rcv.now) }
    ensures err { OnErr result (plan.new.steps ≡ plan.old.steps) }
    ensures ranks { plan.new.ranks ≡ plan.old.ranks }
{
    let Ok(edges) = route(alloc, top, members.len() as u32, source) else {
        return Err(ScopeErr::NoMemory);
    };
    if let Err(e) = plan.room_for(2 * edges.len() as u32) {
        return Err(refused(e));
    }
    push_edges(plan, members, &edges, source, shape, part, rcv);
    Ok(())
}

// The selected elements of the source's part, to every other member's part at `rcv`.
fn broadcast_part(
    alloc: Global,
    plan: &mut Plan<RankOp>,
    shapes: &Shapes,
    ctx: &Context,
    scope: Scope,
    top: Top,
    shape: Shape,
    part: &Part,
    src: (u32, u32),
    rcv: &Spot,
) -> Result<(), ScopeErr>
    requires world { AreOfOneWorld plan.old shapes.now ctx.now }
    requires array { part.now.array < shapes.now.count }
    requires rcv_array { rcv.now.array < shapes.now.count }
    requires top { HasBranches top }
    requires quiet { IsScopeQuiet plan.old ctx.now scope }
    ensures fault { IsAnswer result (broadcast_fault (length plan.old.steps) shapes.now ctx.now scope part.now src rcv.now) }
    ensures ok { OnOk result (IsBroadcastMade shapes.now plan.old plan.new ctx.now scope shape part.now src rcv.now) }
    ensures along { OnOk result (IsBroadcastAlong plan.old plan.new ctx.now scope top shape part.now src rcv.now) }
    ensures kept { IsKept result plan.old plan.new }
{
    let (ranks, source) = match listed(alloc, shapes, ctx, scope, src) {
        Ok(members) => members,
        Err(e) => return Err(e),
    };
    if !members_fit(shapes, &ranks, source, part, rcv) {
        return Err(ScopeErr::OutOfArray);
    }
    push_route(alloc, plan, &ranks, source, top, shape, part, rcv)
}

/// The process at `src` sends its part to every other member of the scope, which receives as many rows and columns at
/// `rcv`, along the tree of a topology. It never answers SameArray, BadRcLead, NoMessage or WrongLength. A User's Guide
/// to the BLACS, IGEBS2D and IGEBR2D.
pub fn igebs2d(
    alloc: Global,
    plan: &mut Plan<RankOp>,
    shapes: &Shapes,
    ctx: &Context,
    scope: Scope,
    top: Top,
    part: &Part,
    src: (u32, u32),
    rcv: &Spot,
) -> Result<(), ScopeErr>
    requires world { AreOfOneWorld plan.old shapes.now ctx.now }
    requires array { part.now.array < shapes.now.count }
    requires rcv_array { rcv.now.array < shapes.now.count }
    requires top { HasBranches top }
    requires quiet { IsScopeQuiet plan.old ctx.now scope }
    ensures fault { IsAnswer result (broadcast_fault (length plan.old.steps) shapes.now ctx.now scope part.now src rcv.now) }
    ensures ok { OnOk result (IsBroadcastMade shapes.now plan.old plan.new ctx.now scope Ge part.now src rcv.now) }
    ensures along { OnOk result (IsBroadcastAlong plan.old plan.new ctx.now scope top Ge part.now src rcv.now) }
    ensures kept { IsKept result plan.old plan.new }
{
    broadcast_part(
        alloc,
        plan,
        shapes,
        ctx,
        scope,
        top,
        Shape::Ge,
        part,
        src,
        rcv,
    )
}

/// As `igebs2d`, of the selected elements of a trapezoid. A User's Guide to the BLACS, ITRBS2D and ITRBR2D.
pub fn itrbs2d(
    alloc: Global,
    plan: &mut Plan<RankOp>,
    shapes: &Shapes,
    ctx: &Context,
    scope: Scope,
    top: Top,
    uplo: Uplo,
    diag: Diag,
    part: &Part,
    src: (u32, u32),
    rcv: &Spot,
) -> Result<(), ScopeErr>
    requires world { AreOfOneWorld plan.old shapes.now ctx.now }
    requires array { part.now.array < shapes.now.count }
    requires rcv_array { rcv.now.array < shapes.now.count }
    requires top { HasBranches top }
    requires quiet { IsScopeQuiet plan.old ctx.now scope }
    ensures fault { IsAnswer result (broadcast_fault (length plan.old.steps) shapes.now ctx.now scope part.now src rcv.now) }
    ensures ok { OnOk result (IsBroadcastMade shapes.now plan.old plan.new ctx.now scope (Tr uplo diag) part.now src rcv.now) }
    ensures along { OnOk result (IsBroadcastAlong plan.old plan.new ctx.now scope top (Tr uplo diag) part.now src rcv.now) }
    ensures kept { IsKept result plan.old plan.new }
{
    broadcast_part(
        alloc,
        plan,
        shapes,
        ctx,
        scope,
        top,
        Shape::Tr(uplo, diag),
        part,
        src,
        rcv,
    )
}
