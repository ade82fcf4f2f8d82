//! Grids over the ranks of a world, dealt out in order or by a map.

ghost use Rattle.std.specs.Prelude.{◌≡◌, ℕ, ◌+◌, ◌-◌, ◌*◌, ◌/◌, ◌%◌, ◌<◌, ◌≤◌, length, slice_index, slice_get, Some, None, Ok, Err, IfOk, IfSome, IfNone, MatchOption, MatchResult, OnOk};
ghost use Rattle.proc_grid.specs.FirstOf.{first_of};
ghost use Rattle.proc_grid.specs.Grid.{IsGrid, rank_at, place_of};
ghost use Rattle.proc_grid.specs.Refusals.{shape_refusal, lead_refusal, map_refusal, place_refusal, dealt_rank, dealt_place, dealt_grid, mapped_grid, FitsShape};

use crate::world::MOST;
use crate::{Context, GridErr, Order, World};
use std::alloc::{AllocError, Global};

/// The grid of `nprow` by `npcol` processes over the first ranks of the world. Rank k stands at
/// (k div `npcol`, k mod `npcol`) for `Order::R` and at (k mod `nprow`, k div `nprow`) for `Order::C`. Refused as
/// `BadShape` where a number is 0 or above 64, then as `TooMany` where the world has fewer ranks. A User's Guide to
/// the BLACS, `BLACS_GRIDINIT`.
pub fn gridinit(
    alloc: Global,
    world: &World,
    order: Order,
    nprow: u32,
    npcol: u32,
) -> Result<Context, GridErr>
    ensures refused { IfSome (shape_refusal world.now.ranks nprow npcol) (λ e. result ≡ Err e) }
    ensures made { let grid = dealt_grid order nprow npcol in
        IfNone (shape_refusal world.now.ranks nprow npcol)
        (MatchResult result (λ context. context ≡ grid) (λ e. e ≡ GridErr.NoMemory)) }

    ensures grid { IfOk result IsGrid }

    // Which ranks are in the grid, and where each stands.
    ensures places { IfOk result (λ context. (rank : ℕ) → rank < nprow * npcol →
        place_of context rank ≡ Some (dealt_place order nprow npcol rank)) }
    ensures ranks { IfOk result (λ context. (k : ℕ) → k < length context.ranks →
        slice_index context.ranks k < world.now.ranks) }
{
    check_shape(world, nprow, npcol)?;
    let ranks = dealt(alloc, order, nprow, npcol)?;
    Ok(Context::new(nprow, npcol, ranks))
}

// A shape that a grid may have, with no more places than there are ranks.
fn check_shape(world: &World, nprow: u32, npcol: u32) -> Result<(), GridErr>
    ensures answer { MatchOption (shape_refusal world.now.ranks nprow npcol) (result ≡ Ok tt)
        (λ e. result ≡ Err e) }
    ensures fits { OnOk result (FitsShape world.now.ranks nprow npcol) }
{
    if nprow == 0 || nprow > MOST || npcol == 0 || npcol > MOST {
        return Err(GridErr::BadShape(nprow, npcol));
    }
    if nprow * npcol > world.ranks {
        return Err(GridErr::TooMany(nprow * npcol, world.ranks));
    }
    Ok(())
}

// The ranks in row-major order, as they are dealt out.
fn dealt(alloc: Global, order: Order, nprow: u32, npcol: u32) -> Result<Vec<u32>, AllocError>
    requires columns { 0 < npcol }
    requires few { nprow * npcol ≤ 64 }
    ensures { IfOk result (λ ranks. ranks.items ≡ (dealt_grid order nprow npcol).ranks) }
{
    let mut ranks = Vec::with_capacity(alloc, (nprow * npcol) as usize)?;
    for place in 0..nprow * npcol {
        ranks.push(dealt_at(order, nprow, npcol, place))?;
    }
    Ok(ranks)
}

// The rank at a place with a number of the row-major order.
fn dealt_at(order: Order, nprow: u32, npcol: u32, place: u32) -> u32
    requires columns { 0 < npcol }
    requires few { nprow * npcol ≤ 64 }
    requires place { place < nprow * npcol }
    ensures { result ≡ dealt_rank order nprow npcol (place / npcol) (place % npcol) }
{
    match order {
        Order::R => place,
        Order::C => place % npcol * nprow + place / npcol,
    }
}

/// The grid of `nprow` by `npcol` processes with the rank `usermap[q * ldumap + p]` at (p, q): the map lies by columns
/// with the leading dimension `ldumap`. Refused as by `gridinit`; then as `BadLead` where `ldumap` is below `nprow` or
/// the map is shorter than `ldumap * (npcol - 1) + nprow`; then at the first bad place in row-major order, as
/// `NoProcess` where the number there is no rank, and as `Twice` where it stands at an earlier place. A User's Guide
/// to the BLACS, `BLACS_GRIDMAP`.
pub fn gridmap(
    alloc: Global,
    world: &World,
    usermap: &[u32],
    ldumap: u32,
    nprow: u32,
    npcol: u32,
) -> Result<Context, GridErr>
    ensures refused { let refusal = map_refusal world.now.ranks usermap.now ldumap nprow npcol in
        IfSome refusal (λ e. result ≡ Err e) }
    ensures made { let refusal = map_refusal world.now.ranks usermap.now ldumap nprow npcol in
        let grid = mapped_grid usermap.now ldumap nprow npcol in
        IfNone refusal
        (MatchResult result (λ context. context ≡ grid) (λ e. e ≡ GridErr.NoMemory)) }

    ensures grid { IfOk result IsGrid }

    // Which rank stands at each place.
    ensures places { IfOk result (λ context. (p q : ℕ) → p < nprow → q < npcol →
        rank_at context p q ≡ Some (slice_index usermap.now (q * ldumap + p))) }
    ensures ranks { IfOk result (λ context. (k : ℕ) → k < length context.ranks →
        slice_index context.ranks k < world.now.ranks) }
{
    check_shape(world, nprow, npcol)?;
    check_lead(usermap, ldumap, nprow, npcol)?;
    let mut room = [0; MOST as usize];
    let places = &mut room[..(nprow * npcol) as usize];
    read_map(world, usermap, ldumap, nprow, npcol, places)?;
    let ranks = Vec::from_slice(alloc, places)?;
    Ok(Context::new(nprow, npcol, ranks))
}

// Columns that are long enough for the rows, and a map that has all its places.
fn check_lead(usermap: &[u32], ldumap: u32, nprow: u32, npcol: u32) -> Result<(), GridErr>
    requires columns { 0 < npcol }
    requires few_columns { npcol ≤ 64 }
    requires few_rows { nprow ≤ 64 }
    ensures answer { MatchOption (lead_refusal usermap.now ldumap nprow npcol) (result ≡ Ok tt)
        (λ e. result ≡ Err e) }
    ensures lead { OnOk result (nprow ≤ ldumap) }
    ensures size { OnOk result (ldumap * (npcol - 1) + nprow ≤ length usermap.now) }
{
    let size = ldumap as usize * (npcol as usize - 1) + nprow as usize;
    if ldumap < nprow || usermap.len() < size {
        return Err(GridErr::BadLead);
    }
    Ok(())
}

// Reads the ranks in row-major order, up to the first bad place.
fn read_map(
    world: &World,
    usermap: &[u32],
    ldumap: u32,
    nprow: u32,
    npcol: u32,
    places: &mut [u32],
) -> Result<(), GridErr>
    requires columns { 0 < npcol }
    requires few { nprow * npcol ≤ 64 }
    requires whole { length places.old ≡ nprow * npcol }
    requires lead { nprow ≤ ldumap }
    requires size { ldumap * (npcol - 1) + nprow ≤ length usermap.now }
    ensures answer { let places = (mapped_grid usermap.now ldumap nprow npcol).ranks in
        let refusal = first_of (place_refusal world.now.ranks places) (nprow * npcol) in
        MatchOption refusal (result ≡ Ok tt) (λ e. result ≡ Err e) }
    ensures read { OnOk result (places.new ≡ (mapped_grid usermap.now ldumap nprow npcol).ranks) }
    ensures good { let places = (mapped_grid usermap.now ldumap nprow npcol).ranks in
        OnOk result (first_of (place_refusal world.now.ranks places) (nprow * npcol) ≡ None) }
{
    for place in 0..places.len() {
        let rank = mapped(usermap, ldumap, nprow, npcol, place as u32);
        if rank >= world.ranks {
            return Err(GridErr::NoProcess(rank));
        }
        if places[..place].contains(&rank) {
            return Err(GridErr::Twice(rank));
        }
        places[place] = rank;
    }
    Ok(())
}

// The rank that a map has for a place with a number of the row-major order.
fn mapped(usermap: &[u32], ldumap: u32, nprow: u32, npcol: u32, place: u32) -> u32
    requires columns { 0 < npcol }
    requires few { nprow * npcol ≤ 64 }
    requires lead { nprow ≤ ldumap }
    requires size { ldumap * (npcol - 1) + nprow ≤ length usermap.now }
    requires place { place < nprow * npcol }
    ensures { result ≡ slice_index usermap.now (place % npcol * ldumap + place / npcol) }
{
    usermap[(place % npcol) as usize * ldumap as usize + (place / npcol) as usize]
}
