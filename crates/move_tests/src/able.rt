//! What a move asks of the shapes, looked at before the call.

ghost use Rattle.std.specs.Prelude.{◌≡◌, ◌<◌, ◌≤◌, ◌^◌, ℕ, Some, None, true, max, pos, IfOk, IfSome};
ghost use Rattle.std.specs.List.{AllByRecursion};
ghost use Rattle.index_tools.specs.Home.{local_columns};
ghost use Rattle.proc_grid.specs.Grid.{Grid, IsGrid};
ghost use Rattle.proc_grid.specs.Held.{context_at};
ghost use Rattle.descriptor.specs.Bounds.{part};
ghost use Rattle.descriptor.specs.Good.{IsGood, layout_of, lld_of};
ghost use Rattle.descriptor.specs.InfoOf.{info_of};
ghost use Rattle.descriptor.specs.Entries.{move_entries, gemr2d_entries, trmr2d_entries};
ghost use Rattle.pack_words.specs.GridShapes.{IsSize, shape_of};
ghost use Rattle.mr2d.specs.Homes.{rank_of, HasShape};
ghost use Rattle.mr2d.specs.Calls.{spread_array};
ghost use Rattle.move_tests.specs.MovePlans.{IsMovePlan};

use descriptor::{Moved, MrArgs, MrErr, Spread, info_gemr2d, info_trmr2d};
use index_tools::numroc;
use mr2d::{pigemr2d, pitrmr2d};
use msg_core::Plan;
use pack_words::{RankOp, Shapes};
use proc_grid::{Context, Contexts};
use std::alloc::{AllocError, Global};

// A number that is at least 0 and small.
fn number(value: i64) -> u32
    requires is { value ≡ pos (part value) }
    requires small { part value ≤ 2 ^ 24 }
    ensures { result ≡ part value }
{
    value as u32
}

// The leading dimension on a process.
fn lead_at(spread: &Spread, grid: &Context, p: u32, q: u32) -> u32
    requires good { IsGood spread.now grid.now }
    requires row { p < grid.now.nprow }
    requires column { q < grid.now.npcol }
    ensures { result ≡ lld_of spread.now grid.now p q }
{
    number(spread.llds.as_slice()[(p * grid.npcol() + q) as usize])
}

// The columns of the array on a process.
fn columns_at(spread: &Spread, grid: &Context, q: u32) -> u32
    requires good { IsGood spread.now grid.now }
    requires column { q < grid.now.npcol }
    ensures { result ≡ max 1 (local_columns (layout_of spread.now grid.now) q) }
{
    let desc = &spread.desc;
    let npcol = grid.npcol();
    numroc(number(desc.n), number(desc.nb), q, number(desc.csrc), npcol).max(1)
}

// Whether the rank of a process has the array, of its leading dimension and columns.
fn is_sized(shapes: &Shapes, array: u32, spread: &Spread, grid: &Context, p: u32, q: u32) -> bool
    requires good { IsGood spread.now grid.now }
    requires array { array < shapes.now.count }
    requires row { p < grid.now.nprow }
    requires column { q < grid.now.npcol }
    ensures rank { result ≡ true → rank_of grid.now p q < shapes.now.ranks }
    ensures size { result ≡ true → shape_of shapes.now (rank_of grid.now p q) array ≡
        (lld_of spread.now grid.now p q, max 1 (local_columns (layout_of spread.now grid.now) q)) }
{
    let Some(rank) = grid.rank_at(p, q) else {
        return false;
    };
    if rank >= shapes.ranks() {
        return false;
    }
    let (lead, columns) = shapes.of(rank, array);
    lead == lead_at(spread, grid, p, q) && columns == columns_at(spread, grid, q)
}

// Whether each process of a row has the array.
fn is_row_sized(shapes: &Shapes, array: u32, spread: &Spread, grid: &Context, p: u32) -> bool
    requires good { IsGood spread.now grid.now }
    requires array { array < shapes.now.count }
    requires row { p < grid.now.nprow }
    ensures ranks { result ≡ true → (q : ℕ) → q < grid.now.npcol → rank_of grid.now p q < shapes.now.ranks }
    ensures sizes { result ≡ true → (q : ℕ) → q < grid.now.npcol → shape_of shapes.now (rank_of grid.now p q) array ≡
        (lld_of spread.now grid.now p q, max 1 (local_columns (layout_of spread.now grid.now) q)) }
{
    for q in 0..grid.npcol() {
        if !is_sized(shapes, array, spread, grid, p, q) {
            return false;
        }
    }
    true
}

// Whether each process has the array.
fn has_shape(shapes: &Shapes, array: u32, spread: &Spread, grid: &Context) -> bool
    requires good { IsGood spread.now grid.now }
    requires array { array < shapes.now.count }
    ensures { result ≡ true → HasShape (spread_array array spread.now grid.now) shapes.now }
{
    for p in 0..grid.nprow() {
        if !is_row_sized(shapes, array, spread, grid, p) {
            return false;
        }
    }
    true
}

// The grid of a descriptor.
fn grid_of<'c>(contexts: &'c Contexts, spread: &Spread) -> Option<&'c Context>
    ensures there { IfSome result (λ c. context_at contexts.now spread.now.desc.ctxt ≡ Some c.now) }
    ensures grid { IfSome result (λ c. IsGrid c.now) }
{
    contexts.get(spread.desc.ctxt)
}

/// Whether both arrays of a move have their shapes, where its arguments pass.
pub fn have_shapes(shapes: &Shapes, contexts: &Contexts, args: &MrArgs) -> bool
    requires passes { (shift : ℕ) × (info_of (move_entries contexts.now args.now shift) ≡ None) }
    requires a { args.now.a < shapes.now.count }
    requires b { args.now.b < shapes.now.count }
    ensures source { result ≡ true → (g : Grid) → context_at contexts.now args.now.desca.desc.ctxt ≡ Some g →
        HasShape (spread_array args.now.a args.now.desca g) shapes.now }
    ensures target { result ≡ true → (g : Grid) → context_at contexts.now args.now.descb.desc.ctxt ≡ Some g →
        HasShape (spread_array args.now.b args.now.descb g) shapes.now }
{
    let Some(source) = grid_of(contexts, &args.desca) else {
        return false;
    };
    let Some(target) = grid_of(contexts, &args.descb) else {
        return false;
    };
    has_shape(shapes, args.a, &args.desca, source) && has_shape(shapes, args.b, &args.descb, target)
}

// Whether the arguments of a whole move are refused, or both arrays have their shapes.
fn is_able(shapes: &Shapes, contexts: &Contexts, args: &MrArgs) -> bool
    requires a { args.now.a < shapes.now.count }
    requires b { args.now.b < shapes.now.count }
    ensures source { result ≡ true → info_of (gemr2d_entries contexts.now args.now) ≡ None → (g : Grid) →
        context_at contexts.now args.now.desca.desc.ctxt ≡ Some g →
        HasShape (spread_array args.now.a args.now.desca g) shapes.now }
    ensures target { result ≡ true → info_of (gemr2d_entries contexts.now args.now) ≡ None → (g : Grid) →
        context_at contexts.now args.now.descb.desc.ctxt ≡ Some g →
        HasShape (spread_array args.now.b args.now.descb g) shapes.now }
{
    match info_gemr2d(contexts, args) {
        Ok(()) => have_shapes(shapes, contexts, args),
        Err(_) => true,
    }
}

// The same of the move of a trapezoid.
fn is_part_able(shapes: &Shapes, contexts: &Contexts, letters: (char, char), args: &MrArgs) -> bool
    requires a { args.now.a < shapes.now.count }
    requires b { args.now.b < shapes.now.count }
    ensures source { result ≡ true → info_of (trmr2d_entries contexts.now letters.0 letters.1 args.now) ≡ None →
        (g : Grid) → context_at contexts.now args.now.desca.desc.ctxt ≡ Some g →
        HasShape (spread_array args.now.a args.now.desca g) shapes.now }
    ensures target { result ≡ true → info_of (trmr2d_entries contexts.now letters.0 letters.1 args.now) ≡ None →
        (g : Grid) → context_at contexts.now args.now.descb.desc.ctxt ≡ Some g →
        HasShape (spread_array args.now.b args.now.descb g) shapes.now }
{
    match info_trmr2d(contexts, letters.0, letters.1, args) {
        Ok(()) => have_shapes(shapes, contexts, args),
        Err(_) => true,
    }
}

/// Whether each is the size of a local array.
pub fn are_sizes(sizes: &[(u32, u32)]) -> bool
    ensures { result ≡ true → AllByRecursion IsSize sizes.now }
{
    for size in sizes {
        if !is_size(size) {
            return false;
        }
    }
    true
}

// Whether it is a leading dimension of 1 to 2^24 and the columns of at most 2^26 words.
fn is_size(size: &(u32, u32)) -> bool
    ensures { result ≡ true → IsSize size.now }
{
    1 <= size.0 && size.0 <= 1 << 24 && u64::from(size.0) * u64::from(size.1) <= 1 << 26
}

/// A plan without operations.
pub fn fresh_plan(alloc: Global, shapes: &Shapes) -> Result<Plan<RankOp>, AllocError>
    requires ranks { (0 < shapes.now.ranks) × (shapes.now.ranks ≤ 64) }
    ensures { IfOk result (λ plan. IsMovePlan shapes.now plan) }
{
    Plan::new(alloc, shapes.ranks())
}

/// The move in a plan of moves. None where the arguments pass and an array hasn't its shape.
pub fn moved(
    alloc: Global,
    plan: &mut Plan<RankOp>,
    shapes: &Shapes,
    contexts: &Contexts,
    args: &MrArgs,
) -> Option<Result<Moved, MrErr>>
    requires a { args.now.a < shapes.now.count }
    requires b { args.now.b < shapes.now.count }
    requires plan { IsMovePlan shapes.now plan.old }
    ensures plan { IsMovePlan shapes.now plan.new }
{
    if !is_able(shapes, contexts, args) {
        return None;
    }
    Some(pigemr2d(alloc, plan, shapes, contexts, args))
}

/// The move of the trapezoid that two letters name, in the same way.
pub fn part_moved(
    alloc: Global,
    plan: &mut Plan<RankOp>,
    shapes: &Shapes,
    contexts: &Contexts,
    letters: (char, char),
    args: &MrArgs,
) -> Option<Result<Moved, MrErr>>
    requires a { args.now.a < shapes.now.count }
    requires b { args.now.b < shapes.now.count }
    requires plan { IsMovePlan shapes.now plan.old }
    ensures plan { IsMovePlan shapes.now plan.new }
{
    if !is_part_able(shapes, contexts, letters, args) {
        return None;
    }
    Some(pitrmr2d(alloc, plan, shapes, contexts, letters.0, letters.1, args))
}
