//! Scopes of a grid: the position of a place in them, and whether parts fit their members.

ghost use Rattle.std.specs.Prelude.{◌≡◌, ◌⊎◌, ℕ, ◌<◌, ◌≤◌, length, slice_index, IfOk, IfErr, None};
ghost use Rattle.proc_grid.specs.Scopes.{position_in};
ghost use Rattle.scope_ops.specs.Broadcasts.{part_sent};
ghost use Rattle.scope_ops.specs.CombineRefusals.{root_place};
ghost use Rattle.scope_ops.specs.Scopes.{IsListed, all_below, member_fits};

use crate::part::{Part, Spot};
use crate::scope_err::ScopeErr;
use pack_words::Shapes;
use proc_grid::{Context, Scope, scope_members, scope_position};
use std::alloc::Global;

// The ranks of the scope in scope order, and the position of a place among them.
#[tactic(auto, using(crate::proofs::Scoped::is_listed))]
pub(crate) fn listed(
    alloc: Global,
    shapes: &Shapes,
    ctx: &Context,
    scope: Scope,
    place: (u32, u32),
) -> Result<(Vec<u32>, u32), ScopeErr>
    requires { (k : ℕ) → k < length ctx.now.ranks → slice_index ctx.now.ranks k < shapes.now.ranks }
    ensures ok { IfOk result (λ found. IsListed ctx.now shapes.now scope place found.0.items found.1) }
    ensures err { IfErr result (λ e. (e ≡ ScopeErr.NoMemory) ⊎
        ((e ≡ ScopeErr.NotInGrid) × (position_in ctx.now scope place ≡ None))) }
{
    let Some(position) = scope_position(ctx, scope, place) else {
        return Err(ScopeErr::NotInGrid);
    };
    let Ok(ranks) = scope_members(alloc, ctx, scope) else {
        return Err(ScopeErr::NoMemory);
    };
    let _ranks = shapes.ranks();
    Ok((ranks, position))
}

// The place whose process gathers: the destination, or the scope's first place where all are destinations.
pub(crate) fn root_place(scope: Scope, dest: Option<(u32, u32)>) -> (u32, u32)
    ensures { result ≡ root_place scope dest }
{
    match dest {
        Some(place) => place,
        None => match scope {
            Scope::Row(row) => (row, 0),
            Scope::Column(column) => (0, column),
            Scope::All => (0, 0),
        },
    }
}

// The part that member `k` sends: the source its own, another what it has received.
pub(crate) fn part_of(source: u32, part: &Part, rcv: &Spot, k: u32) -> Part
    ensures { result ≡ part_sent source part.now rcv.now k }
{
    if k == source { *part } else { rcv.part(part) }
}

// Whether the part that member `k` uses fits its array.
fn fits_member(
    shapes: &Shapes,
    members: &[u32],
    source: u32,
    part: &Part,
    rcv: &Spot,
    k: u32,
) -> bool
    requires within { (k : ℕ) → k < length members.now → slice_index members.now k < shapes.now.ranks }
    requires member { k < length members.now }
    requires array { part.now.array < shapes.now.count }
    requires rcv_array { rcv.now.array < shapes.now.count }
    ensures { result ≡ member_fits shapes.now members.now source part.now rcv.now k }
{
    let used = part_of(source, part, rcv, k);
    used.fits(shapes.of(members[k as usize], used.array))
}

// Whether the part fits the source, and the part of the same size at `rcv` each other member.
#[tactic(auto, using(crate::proofs::Below::below_more, crate::proofs::Below::below_fails))]
pub(crate) fn members_fit(
    shapes: &Shapes,
    members: &[u32],
    source: u32,
    part: &Part,
    rcv: &Spot,
) -> bool
    requires within { (k : ℕ) → k < length members.now → slice_index members.now k < shapes.now.ranks }
    requires few { length members.now ≤ 64 }
    requires array { part.now.array < shapes.now.count }
    requires rcv_array { rcv.now.array < shapes.now.count }
    ensures { result ≡ all_below (member_fits shapes.now members.now source part.now rcv.now) (length members.now) }
{
    for k in 0..members.len() as u32 {
        if !fits_member(shapes, members, source, part, rcv, k) {
            return false;
        }
    }
    true
}
