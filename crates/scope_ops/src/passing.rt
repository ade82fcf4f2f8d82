//! What a combine or a barrier appends to a plan, step by step. The room is there, so no step is refused.

ghost use Rattle.std.specs.Prelude.{◌≡◌, ◌<◌, ◌≤◌, ◌+◌, ◌*◌, ℕ, [], ◌∷◌, ◌++◌, length, slice_index, IsOk};
ghost use Rattle.msg_core.specs.Plans.{waiting_lens};
ghost use Rattle.route_tree.specs.Routes.{IsRoute};
ghost use Rattle.route_laws.specs.Passing.{turned};
ghost use Rattle.route_plans.specs.Members.{rank_in, AreFree};
ghost use Rattle.route_plans.specs.PlanSteps.{plan_passing, plan_each};
ghost use Rattle.pack_words.specs.GridState.{rank_steps};
ghost use Rattle.scope_ops.specs.CombineOps.{relay_send, relay_receive, sent_by, received_by, own_op, IsGoodRelay, IsGoodOwn};

use crate::own::Own;
use crate::part::Part;
use crate::relay::Relay;
use msg_core::{Plan, PlanErr};
use pack_words::RankOp;

// One member's message to another, which receives it at once.
fn push_relay(plan: &mut Plan<RankOp>, from: u32, to: u32, relay: Relay) -> Result<(), PlanErr>
    requires relay { IsGoodRelay relay }
    requires from { from < plan.old.ranks }
    requires to { to < plan.old.ranks }
    requires free { waiting_lens rank_steps plan.old from to ≡ [] }
    requires room { 2 ≤ plan.old.room }
    requires few { length plan.old.steps + 2 ≤ 1048576 }
    ensures done { IsOk result }
    ensures steps { plan.new.steps ≡ plan.old.steps ++ (from, sent_by relay to) ∷ (to, received_by relay from) ∷ [] }
    ensures ranks { plan.new.ranks ≡ plan.old.ranks }
    ensures room { plan.old.room ≤ plan.new.room + 2 }
{
    plan.push_send(from, relay.send(to))?;
    plan.push_recv(to, relay.receive(from))
}

// Along the edges of a route, in order.
pub(crate) fn push_down(
    plan: &mut Plan<RankOp>,
    members: &[u32],
    edges: &[(u32, u32)],
    relay: Relay,
) -> Result<(), PlanErr>
    requires relay { IsGoodRelay relay }
    requires route { (source : ℕ) × IsRoute (length members.now) source edges.now }
    requires members { AreFree rank_steps members.now plan.old }
    requires room { 2 * length edges.now ≤ plan.old.room }
    requires few { length plan.old.steps + 2 * length edges.now ≤ 1048576 }
    ensures done { IsOk result }
    ensures steps { plan.new.steps ≡ plan.old.steps ++ plan_passing (rank_in members.now)
        (relay_send relay (rank_in members.now)) (relay_receive relay (rank_in members.now)) edges.now }
    ensures ranks { plan.new.ranks ≡ plan.old.ranks }
    ensures room { plan.old.room ≤ plan.new.room + 2 * length edges.now }
{
    for i in 0..edges.len() {
        let (from, to) = edges[i];
        push_relay(plan, members[from as usize], members[to as usize], relay)?;
    }
    Ok(())
}

// Along the edges from child to parent, in the opposite order.
pub(crate) fn push_up(
    plan: &mut Plan<RankOp>,
    members: &[u32],
    edges: &[(u32, u32)],
    relay: Relay,
) -> Result<(), PlanErr>
    requires relay { IsGoodRelay relay }
    requires route { (source : ℕ) × IsRoute (length members.now) source edges.now }
    requires members { AreFree rank_steps members.now plan.old }
    requires room { 2 * length edges.now ≤ plan.old.room }
    requires few { length plan.old.steps + 2 * length edges.now ≤ 1048576 }
    ensures done { IsOk result }
    ensures steps { plan.new.steps ≡ plan.old.steps ++ plan_passing (rank_in members.now)
        (relay_send relay (rank_in members.now)) (relay_receive relay (rank_in members.now)) (turned edges.now) }
    ensures ranks { plan.new.ranks ≡ plan.old.ranks }
    ensures room { plan.old.room ≤ plan.new.room + 2 * length edges.now }
{
    for i in 0..edges.len() {
        let (parent, child) = edges[edges.len() - 1 - i];
        push_relay(
            plan,
            members[child as usize],
            members[parent as usize],
            relay,
        )?;
    }
    Ok(())
}

// A local operation of one member.
pub(crate) fn push_own(
    plan: &mut Plan<RankOp>,
    members: &[u32],
    position: u32,
    own: Own,
    part: &Part,
) -> Result<(), PlanErr>
    requires part { IsGoodOwn own part.now }
    requires position { position < length members.now }
    requires rank { rank_in members.now position < plan.old.ranks }
    requires room { 1 ≤ plan.old.room }
    requires few { length plan.old.steps + 1 ≤ 1048576 }
    ensures done { IsOk result }
    ensures steps { plan.new.steps ≡ plan.old.steps ++
        (rank_in members.now position, own_op own part.now position) ∷ [] }
    ensures ranks { plan.new.ranks ≡ plan.old.ranks }
    ensures room { plan.old.room ≤ plan.new.room + 1 }
{
    plan.push_local(members[position as usize], own.op(part, position))
}

// The same of each member, in scope order.
pub(crate) fn push_each(
    plan: &mut Plan<RankOp>,
    members: &[u32],
    own: Own,
    part: &Part,
) -> Result<(), PlanErr>
    requires part { IsGoodOwn own part.now }
    requires within { (k : ℕ) → k < length members.now → rank_in members.now k < plan.old.ranks }
    requires most { length members.now ≤ 64 }
    requires room { length members.now ≤ plan.old.room }
    requires few { length plan.old.steps + length members.now ≤ 1048576 }
    ensures done { IsOk result }
    ensures steps { plan.new.steps ≡ plan.old.steps ++
        plan_each (rank_in members.now) (own_op own part.now) (length members.now) }
    ensures ranks { plan.new.ranks ≡ plan.old.ranks }
    ensures room { plan.old.room ≤ plan.new.room + length members.now }
{
    for k in 0..members.len() as u32 {
        push_own(plan, members, k, own, part)?;
    }
    Ok(())
}
