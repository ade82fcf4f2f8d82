//! Barriers of a scope. A User's Guide to the BLACS, BLACS_BARRIER.

ghost use Rattle.std.specs.Prelude.{◌≡◌, ◌<◌, ◌≤◌, ◌+◌, ◌-◌, ◌*◌, ◌++◌, ℕ, None, length, OnOk, OnErr};
ghost use Rattle.proc_grid.specs.Scopes.{members};
ghost use Rattle.route_tree.specs.Routes.{IsRoute};
ghost use Rattle.route_tree.specs.Parents.{edges_of};
ghost use Rattle.route_plans.specs.Members.{AreFree};
ghost use Rattle.pack_words.specs.GridState.{rank_steps};
ghost use Rattle.scope_ops.specs.Calls.{IsMade, IsKept, IsScopeQuiet};
ghost use Rattle.scope_ops.specs.CombineOps.{barrier_ops, IsPulsed};
ghost use Rattle.scope_ops.specs.CombineRefusals.{barrier_fault};
ghost use Rattle.scope_ops.specs.Refusals.{AreOfOneWorld, IsAnswer, many_fault};

use crate::passing::{push_down, push_up};
use crate::pushes::refused;
use crate::relay::Relay;
use crate::scope_err::ScopeErr;
use crate::scopes::{listed, root_place};
use msg_core::Plan;
use pack_words::{RankOp, Shapes};
use proc_grid::{Context, Scope};
use route_tree::{Top, route};
use std::alloc::Global;

// Messages without words up the edges and down again; the room is there and no message of the scope waits.
fn push_pulses(plan: &mut Plan<RankOp>, members: &[u32], edges: &[(u32, u32)])
    requires route { (root : ℕ) × IsRoute (length members.now) root edges.now }
    requires members { AreFree rank_steps members.now plan.old }
    requires room { 4 * length edges.now ≤ plan.old.room }
    requires few { length plan.old.steps + 4 * length edges.now ≤ 1048576 }
    ensures steps { plan.new.steps ≡ plan.old.steps ++ barrier_ops members.now edges.now }
    ensures ranks { plan.new.ranks ≡ plan.old.ranks }
{
    let Ok(()) = push_up(plan, members, edges, Relay::Pulse) else {
        unreachable!()
    };
    let Ok(()) = push_down(plan, members, edges, Relay::Pulse) else {
        unreachable!()
    };
}

// The operations of a barrier.
fn push_barrier(alloc: Global, plan: &mut Plan<RankOp>, members: &[u32]) -> Result<(), ScopeErr>
    requires some { 0 < length members.now }
    requires most { length members.now ≤ 64 }
    requires members { AreFree rank_steps members.now plan.old }
    ensures fault { IsAnswer result (many_fault (length plan.old.steps) (4 * (length members.now - 1))) }
    ensures ok { OnOk result (IsPulsed plan.old plan.new members.now) }
    ensures err { OnErr result (plan.new.steps ≡ plan.old.steps) }
    ensures ranks { plan.new.ranks ≡ plan.old.ranks }
{
    let Ok(edges) = route(alloc, Top::H, members.len() as u32, 0) else {
        return Err(ScopeErr::NoMemory);
    };
    if let Err(e) = plan.room_for(4 * edges.len() as u32) {
        return Err(refused(e));
    }
    push_pulses(plan, members, &edges);
    Ok(())
}

/// No member of the scope goes on before every other has come here: messages without words go from all members to the
/// first and back. No array is changed. Only NotInGrid, TooManyOps and NoMemory are answered. A User's Guide to the
/// BLACS, BLACS_BARRIER.
pub fn barrier(
    alloc: Global,
    plan: &mut Plan<RankOp>,
    shapes: &Shapes,
    ctx: &Context,
    scope: Scope,
) -> Result<(), ScopeErr>
    requires world { AreOfOneWorld plan.old shapes.now ctx.now }
    requires quiet { IsScopeQuiet plan.old ctx.now scope }
    ensures fault { IsAnswer result (barrier_fault (length plan.old.steps) ctx.now scope) }
    ensures ok { let others = length (members ctx.now scope) - 1 in
        OnOk result (IsMade shapes.now plan.old plan.new (λ s. s) (4 * others) (2 * others) 0) }
    ensures along { let ranks = members ctx.now scope in
        OnOk result (plan.new.steps ≡ plan.old.steps ++ barrier_ops ranks (edges_of Top.H (length ranks) 0)) }
    ensures kept { IsKept result plan.old plan.new }
{
    let (ranks, _first) = match listed(alloc, shapes, ctx, scope, root_place(scope, None)) {
        Ok(found) => found,
        Err(e) => return Err(e),
    };
    push_barrier(alloc, plan, &ranks)
}
