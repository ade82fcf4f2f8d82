//! The operations of a combine, pushed to a plan.

ghost use Rattle.std.specs.Prelude.{◌≡◌, ◌<◌, ◌≤◌, ◌+◌, ◌-◌, ◌*◌, ◌++◌, length, OnOk, OnErr, IsOk};
ghost use Rattle.route_tree.specs.Parents.{HasBranches};
ghost use Rattle.route_tree.specs.Routes.{IsRoute};
ghost use Rattle.route_plans.specs.Members.{AreFree};
ghost use Rattle.pack_words.specs.GridState.{rank_steps};
ghost use Rattle.scope_ops.specs.CombineOps.{IsGoodGather, IsGathered, combine_ops, combine_for_all_ops, gathered_ops};
ghost use Rattle.scope_ops.specs.CombineRefusals.{combine_count};
ghost use Rattle.scope_ops.specs.Refusals.{IsAnswer, many_fault};

use crate::own::Own;
use crate::part::Part;
use crate::passing::{push_down, push_each, push_own, push_up};
use crate::pushes::refused;
use crate::relay::Relay;
use crate::scope_err::ScopeErr;
use msg_core::{Plan, PlanErr};
use pack_words::{Coords, FoldKind, RankOp};
use route_tree::{Top, route};
use std::alloc::Global;

/// What is gathered: every member's part, folded, and stored with the places of the holders where they are asked for.
#[derive(Clone, Copy)]
pub(crate) struct Gather {
    pub fold: FoldKind,
    pub part: Part,
    pub coords: Option<Coords>,
}

impl Gather {
    // How the members' accumulators are joined on the way up.
    fn join(&self) -> Relay
        requires { IsGoodGather self.now }
        ensures { result ≡ Relay.Join (self.now.part.m * self.now.part.n) self.now.fold }
    {
        Relay::Join {
            len: self.part.m * self.part.n,
            fold: self.fold,
        }
    }

    // And how the root's goes down.
    fn spread(&self) -> Relay
        requires { IsGoodGather self.now }
        ensures { result ≡ Relay.Spread (self.now.part.m * self.now.part.n) self.now.fold }
    {
        Relay::Spread {
            len: self.part.m * self.part.n,
            fold: self.fold,
        }
    }
}

// To the member at the root; the room is there and no message of the scope waits.
fn gather_to_one(
    plan: &mut Plan<RankOp>,
    members: &[u32],
    root: u32,
    edges: &[(u32, u32)],
    gather: &Gather,
) -> Result<(), PlanErr>
    requires gather { IsGoodGather gather.now }
    requires root { root < length members.now }
    requires most { length members.now ≤ 64 }
    requires route { IsRoute (length members.now) root edges.now }
    requires members { AreFree rank_steps members.now plan.old }
    requires room { 3 * length members.now - 1 ≤ plan.old.room }
    requires few { length plan.old.steps + (3 * length members.now - 1) ≤ 1048576 }
    ensures done { IsOk result }
    ensures steps { plan.new.steps ≡ plan.old.steps ++
        combine_ops members.now root edges.now gather.now.fold gather.now.part gather.now.coords }
    ensures ranks { plan.new.ranks ≡ plan.old.ranks }
{
    push_each(plan, members, Own::Load, &gather.part)?;
    push_up(plan, members, edges, gather.join())?;
    push_own(plan, members, root, Own::Store(gather.coords), &gather.part)
}

// To every member.
fn gather_to_all(
    plan: &mut Plan<RankOp>,
    members: &[u32],
    root: u32,
    edges: &[(u32, u32)],
    gather: &Gather,
) -> Result<(), PlanErr>
    requires gather { IsGoodGather gather.now }
    requires root { root < length members.now }
    requires most { length members.now ≤ 64 }
    requires route { IsRoute (length members.now) root edges.now }
    requires members { AreFree rank_steps members.now plan.old }
    requires room { 6 * length members.now - 4 ≤ plan.old.room }
    requires few { length plan.old.steps + (6 * length members.now - 4) ≤ 1048576 }
    ensures done { IsOk result }
    ensures steps { plan.new.steps ≡ plan.old.steps ++
        combine_for_all_ops members.now edges.now gather.now.fold gather.now.part gather.now.coords }
    ensures ranks { plan.new.ranks ≡ plan.old.ranks }
{
    push_each(plan, members, Own::Load, &gather.part)?;
    push_up(plan, members, edges, gather.join())?;
    push_down(plan, members, edges, gather.spread())?;
    push_each(plan, members, Own::Store(gather.coords), &gather.part)
}

// How many operations it takes.
fn count(members: u32, dest: Option<(u32, u32)>) -> u32
    requires some { 0 < members }
    requires few { members ≤ 64 }
    ensures { result ≡ combine_count members dest }
{
    match dest {
        Some(_place) => 3 * members - 1,
        None => 6 * members - 4,
    }
}

// Along a route from the root, to one destination or to all.
pub(crate) fn push_gather(
    alloc: Global,
    plan: &mut Plan<RankOp>,
    members: &[u32],
    root: u32,
    top: Top,
    gather: &Gather,
    dest: Option<(u32, u32)>,
) -> Result<(), ScopeErr>
    requires gather { IsGoodGather gather.now }
    requires root { root < length members.now }
    requires most { length members.now ≤ 64 }
    requires members { AreFree rank_steps members.now plan.old }
    requires top { HasBranches top }
    ensures fault { IsAnswer result (many_fault (length plan.old.steps) (combine_count (length members.now) dest)) }
    ensures ok { OnOk result (IsGathered plan.old plan.new top members.now root gather.now dest) }
    ensures err { OnErr result (plan.new.steps ≡ plan.old.steps) }
    ensures ranks { plan.new.ranks ≡ plan.old.ranks }
{
    let Ok(edges) = route(alloc, top, members.len() as u32, root) else {
        return Err(ScopeErr::NoMemory);
    };
    if let Err(e) = plan.room_for(count(members.len() as u32, dest)) {
        return Err(refused(e));
    }
    push_gathered(plan, members, root, &edges, gather, dest);
    Ok(())
}

// The same along edges that are there; the room is there too.
fn push_gathered(
    plan: &mut Plan<RankOp>,
    members: &[u32],
    root: u32,
    edges: &[(u32, u32)],
    gather: &Gather,
    dest: Option<(u32, u32)>,
)
    requires gather { IsGoodGather gather.now }
    requires root { root < length members.now }
    requires most { length members.now ≤ 64 }
    requires route { IsRoute (length members.now) root edges.now }
    requires members { AreFree rank_steps members.now plan.old }
    requires room { combine_count (length members.now) dest ≤ plan.old.room }
    requires few { length plan.old.steps + combine_count (length members.now) dest ≤ 1048576 }
    ensures steps { plan.new.steps ≡ plan.old.steps ++
        gathered_ops members.now root edges.now gather.now dest }
    ensures ranks { plan.new.ranks ≡ plan.old.ranks }
{
    let done = match dest {
        Some(_place) => gather_to_one(plan, members, root, edges, gather),
        None => gather_to_all(plan, members, root, edges, gather),
    };
    let Ok(()) = done else { unreachable!() };
}
