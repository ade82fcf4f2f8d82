//! Whether messages wait of pairs of ranks that a line may use.

ghost use Rattle.std.specs.Prelude.{◌≡◌, false, OnOk};
ghost use Rattle.std.specs.List.{find};
ghost use Rattle.pack_words.specs.GridState.{GridState};
ghost use Rattle.pack_words.specs.GridShapes.{ShapesView};
ghost use Rattle.pack_words.specs.GridPlans.{IsOf};
ghost use Rattle.proc_grid.specs.Scopes.{IsScopeOf, members};
ghost use Rattle.scope_ops.specs.Broadcasts.{IsQuiet};
ghost use Rattle.scope_ops.specs.Calls.{IsScopeQuiet};
ghost use Rattle.program_meaning.specs.Exchanges.{waits, is_scope_of, members_of, pairs_among, pairs_between};
ghost use Rattle.line_plans.specs.Waits.{holds_up, first_pair, held_up, IsHeldUp, AreQuiet};

use crate::halt::Halt;
use msg_core::Plan;
use pack_words::RankOp;
use proc_grid::{Context, Scope, scope_members};
use program_meaning::ExecFault;
use std::alloc::Global;

// Whether a message of the pair waits; a pair of one rank counts only where `own` says so.
fn is_held_up(plan: &Plan<RankOp>, own: bool, from: u32, to: u32) -> bool
    ensures { result ≡ holds_up plan.now own from to }
{
    (own || from != to) && plan.front(from, to).is_some()
}

// The first of the receivers to which a message of the sender waits.
fn first_receiver(plan: &Plan<RankOp>, own: bool, from: u32, tos: &[u32]) -> Option<u32>
    ensures { result ≡ find (holds_up plan.now own from) tos.now }
{
    for k in 0..tos.len() {
        if is_held_up(plan, own, from, tos[k]) {
            return Some(tos[k]);
        }
    }
    None
}

// The first of these pairs of which a message waits, by the sender, then by the receiver.
fn first_waiting(plan: &Plan<RankOp>, own: bool, froms: &[u32], tos: &[u32]) -> Option<(u32, u32)>
    ensures { result ≡ first_pair (holds_up plan.now own) froms.now tos.now }
{
    for k in 0..froms.len() {
        let from = froms[k];
        if let Some(to) = first_receiver(plan, own, from, tos) {
            return Some((from, to));
        }
    }
    None
}

// A message that waits is refused.
fn hold(pair: Option<(u32, u32)>) -> Result<(), Halt>
    ensures { result ≡ held_up pair }
{
    match pair {
        Some((from, to)) => Err(Halt::Fault(ExecFault::Waiting(from, to))),
        None => Ok(()),
    }
}

// Whether the grid has the scope.
fn has_scope(ctx: &Context, scope: Scope) -> bool
    ensures { result ≡ is_scope_of ctx.now scope }
{
    match scope {
        Scope::Row(row) => row < ctx.nprow(),
        Scope::Column(column) => column < ctx.npcol(),
        Scope::All => true,
    }
}

// Refuses the members of a scope while a message waits between two different ones of them.
fn check_members(
    alloc: Global,
    plan: &Plan<RankOp>,
    ctx: &Context,
    scope: Scope,
) -> Result<(), Halt>
    requires { IsScopeOf ctx.now scope }
    ensures quiet { OnOk result (IsQuiet plan.now (members ctx.now scope)) }
    ensures done { (v : ShapesView) (state : GridState) → IsOf v plan.now state →
        IsHeldUp result (find (waits state) (pairs_among (members ctx.now scope))) }
{
    let Ok(members) = scope_members(alloc, ctx, scope) else {
        return Err(Halt::NoMemory);
    };
    hold(first_waiting(plan, false, &members, &members))
}

/// Refuses a scope while a message waits between two different members of it. A scope that the grid hasn't has none.
#[tactic(auto, using(crate::proofs::WaitLaws::scope_there, crate::proofs::WaitLaws::scope_missing, crate::proofs::WaitLaws::members_there, crate::proofs::WaitLaws::members_missing))]
pub(crate) fn check_scope(
    alloc: Global,
    plan: &Plan<RankOp>,
    ctx: &Context,
    scope: Scope,
) -> Result<(), Halt>
    ensures quiet { OnOk result (IsScopeQuiet plan.now ctx.now scope) }
    ensures done { (v : ShapesView) (state : GridState) → IsOf v plan.now state →
        IsHeldUp result (find (waits state) (pairs_among (members_of ctx.now scope))) }
{
    if has_scope(ctx, scope) {
        check_members(alloc, plan, ctx, scope)
    } else {
        Ok(())
    }
}

/// Refuses a move while a message waits from a rank of its first grid to one of its second.
pub(crate) fn check_between(plan: &Plan<RankOp>, a: &Context, b: &Context) -> Result<(), Halt>
    ensures quiet { OnOk result (AreQuiet plan.now a.now.ranks b.now.ranks) }
    ensures done { (v : ShapesView) (state : GridState) → IsOf v plan.now state →
        IsHeldUp result (find (waits state) (pairs_between a.now.ranks b.now.ranks)) }
{
    hold(first_waiting(plan, true, a.ranks(), b.ranks()))
}
