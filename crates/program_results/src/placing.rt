//! The places of the arrays that a program declares.
ghost use Rattle.std.specs.Prelude.{◌≡◌, ◌≤◌, ◌^◌, ℤ, pos, Some, None, map, IfOk, IfSome};
ghost use Rattle.descriptor.specs.Bounds.{part};
ghost use Rattle.descriptor.specs.Good.{IsGood, layout_of as layout_by};
ghost use Rattle.spread_cells.specs.LayoutView.{layout_view};
ghost use Rattle.program_results.specs.Placed.{placed_of};
ghost use Rattle.program_results.specs.Standing.{IsGoodOn, AreGood};

use crate::asking::asks_for_whole;
use crate::place::Place;
use descriptor::Spread;
use grid_lang::Numbered;
use proc_grid::{Context, Contexts};
use spread_cells::Layout;
use std::alloc::{AllocError, Global};

// A number of at most 2^24, as such.
fn natural(value: i64) -> u32
    requires whole { value ≡ pos (part value) }
    requires few { part value ≤ 2 ^ 24 }
    ensures { result ≡ part value }
{
    value as u32
}

// How a descriptor spreads its matrix over a grid.
fn layout_of(spread: &Spread, grid: &Context) -> Layout
    requires { IsGood spread.now grid.now }
    ensures { layout_view result ≡ layout_by spread.now grid.now }
{
    // a grid keeps its limits, as these calls tell
    let nprow = grid.nprow();
    let npcol = grid.npcol();
    let desc = &spread.desc;
    Layout {
        rows: natural(desc.m),
        columns: natural(desc.n),
        mb: natural(desc.mb),
        nb: natural(desc.nb),
        rsrc: natural(desc.rsrc),
        csrc: natural(desc.csrc),
        nprow,
        npcol,
    }
}

// The place of an ARRAY.
#[tactic(auto, using(crate::proofs::AskingLaws::place_made))]
fn place_of(
    alloc: Global,
    contexts: &Contexts,
    spread: &Spread,
    whole: bool,
) -> Result<Place, AllocError>
    requires { IsGoodOn contexts.now spread.now }
    ensures { IfOk result (λ p. Some p ≡ placed_of contexts.now (Some spread.now)) }
{
    match contexts.get(spread.desc.ctxt) {
        Some(grid) => Place::new(alloc, layout_of(spread, grid), grid.ranks(), whole),
        None => unreachable!(),
    }
}

// The place of an array, if it is an ARRAY.
fn place_if_any(
    alloc: Global,
    contexts: &Contexts,
    spread: &Option<Spread>,
    whole: bool,
) -> Result<Option<Place>, AllocError>
    requires { IfSome spread.now (λ s. IsGoodOn contexts.now s) }
    ensures { IfOk result (λ p. p ≡ placed_of contexts.now spread.now) }
{
    match spread {
        Some(spread) => Ok(Some(place_of(alloc, contexts, spread, whole)?)),
        None => Ok(None),
    }
}

/// The places of all arrays, by their numbers. Where each row and column lies is kept of those that these lines save whole or
/// print.
#[tactic(auto, using(crate::proofs::AskingLaws::places_more, crate::proofs::AskingLaws::places_all, crate::proofs::AskingLaws::good_next))]
pub(crate) fn places_of(
    alloc: Global,
    contexts: &Contexts,
    spreads: &[Option<Spread>],
    lines: &[Numbered],
) -> Result<Vec<Option<Place>>, AllocError>
    requires { AreGood contexts.now spreads.now }
    ensures { IfOk result (λ v. v.items ≡ map (placed_of contexts.now) spreads.now) }
{
    let mut places = Vec::with_capacity(alloc, spreads.len())?;
    for spread in spreads {
        let whole = asks_for_whole(lines, places.len());
        places.push(place_if_any(alloc, contexts, spread, whole)?)?;
    }
    Ok(places)
}
