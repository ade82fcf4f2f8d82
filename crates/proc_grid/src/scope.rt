//! The scopes of a grid and their members.

ghost use Rattle.std.specs.Prelude.{◌≡◌, ◌≤◌, ◌↔◌, ℕ, length, IfOk, Some};
ghost use Rattle.proc_grid.specs.Grid.{IsGrid};
ghost use Rattle.proc_grid.specs.Scopes.{IsScopeOf, IsPosition, AreDistinct, members, position_in};

use crate::Context;
use std::alloc::{AllocError, Global};

/// A scope of a grid: one of its process rows or columns, or all of it. A User's Guide to the BLACS, "Scope".
#[derive(Clone, Copy, Debug, PartialEq, Eq)]
pub enum Scope {
    Row(u32),
    Column(u32),
    All,
}

// The ranks of a scope in scope order.
fn listed(alloc: Global, ctx: &Context, scope: Scope) -> Result<Vec<u32>, AllocError>
    requires { IsScopeOf ctx.now scope }
    ensures { IfOk result (λ ranks. ranks.items ≡ members ctx.now scope) }
{
    match scope {
        Scope::Row(row) => ctx.row_members(alloc, row),
        Scope::Column(column) => ctx.column_members(alloc, column),
        Scope::All => ctx.all_members(alloc),
    }
}

/// The ranks of a scope in scope order: by increasing coordinate, and row-major for the whole grid.
pub fn scope_members(alloc: Global, ctx: &Context, scope: Scope) -> Result<Vec<u32>, AllocError>
    requires { IsScopeOf ctx.now scope }
    ensures members { IfOk result (λ ranks. ranks.items ≡ members ctx.now scope) }
    ensures distinct { IfOk result (λ ranks. AreDistinct ranks.items) }
    ensures few { IfOk result (λ ranks. length ranks.items ≤ 64) }
{
    ctx.is_grid();
    let ranks = listed(alloc, ctx, scope)?;
    Ok(ranks)
}

// Where a place of the grid stands in the scope, if it is a member.
fn position(ctx: &Context, scope: Scope, place: (u32, u32)) -> Option<u32>
    ensures position { result ≡ position_in ctx.now scope place }
    ensures grid { IsGrid ctx.now }
{
    let Some(_rank) = ctx.rank_at(place.0, place.1) else {
        return None;
    };
    match scope {
        Scope::Row(row) if place.0 == row => Some(place.1),
        Scope::Column(column) if place.1 == column => Some(place.0),
        Scope::All => Some(place.0 * ctx.npcol() + place.1),
        _ => None,
    }
}

/// The position of a place in the scope list, counted from 0. None exactly where the place isn't in the grid or no
/// member of the scope.
pub fn scope_position(ctx: &Context, scope: Scope, place: (u32, u32)) -> Option<u32>
    ensures position { result ≡ position_in ctx.now scope place }
    ensures member { (k : ℕ) → (result ≡ Some k) ↔ IsPosition ctx.now scope place k }
    ensures grid { IsGrid ctx.now }
{
    position(ctx, scope, place)
}
