//! FILL lines.

ghost use Rattle.std.specs.Prelude.{◌≡◌, ◌<◌, None, Some, slice_get, is_some, true, IfOk, OnOk};
ghost use Rattle.proc_grid.specs.Grid.{IsGrid};
ghost use Rattle.proc_grid.specs.Held.{context_at};
ghost use Rattle.msg_core.specs.Plans.{PlanView};
ghost use Rattle.pack_words.specs.declared.rank_op.RankOp.{RankOp as Operation};
ghost use Rattle.array_contents.specs.Columns.{filling_of};
ghost use Rattle.program_meaning.specs.Declarations.{filled};
ghost use Rattle.grid_exec.specs.Holding.{HoldsArrays};
ghost use Rattle.grid_exec.specs.Reading.{standing};
ghost use Rattle.grid_exec.specs.Words.{IsFilledTo};

use crate::held::Held;
use array_contents::{ArrayContents, Filling};
use descriptor::Spread;
use line_plans::Declared;
use proc_grid::Context;
use std::alloc::{AllocError, Global};

// The grid over which an array is spread.
pub(crate) fn grid_of<'c>(declared: &'c Declared, spread: &Spread) -> &'c Context
    requires { is_some (context_at declared.now.contexts spread.now.desc.ctxt) ≡ true }
    ensures is { context_at declared.now.contexts spread.now.desc.ctxt ≡ Some result.now }
    ensures grid { IsGrid result.now }
{
    match declared.contexts.get(spread.desc.ctxt) {
        Some(ctx) => ctx,
        None => unreachable!(),
    }
}

// FILL of an ARRAY.
fn fill_spread(
    alloc: Global,
    declared: &Declared,
    contents: &mut ArrayContents,
    array: u32,
    spread: &Spread,
    filling: &Filling,
) -> Result<(), AllocError>
    requires holds { HoldsArrays declared.now.shapes contents.old }
    requires spread { slice_get declared.now.spreads.items array ≡ Some (Some spread.now) }
    ensures { OnOk result (IsFilledTo declared.now (filling_of filling.now) array contents.old contents.new) }
{
    let _ranks = declared.shapes.ranks();
    let ctx = grid_of(declared, spread);
    contents.fill_array(alloc, array, spread, ctx, filling)
}

// FILL of a MATRIX.
fn fill_placed(
    alloc: Global,
    declared: &Declared,
    contents: &mut ArrayContents,
    array: u32,
    filling: &Filling,
) -> Result<(), AllocError>
    requires holds { HoldsArrays declared.now.shapes contents.old }
    requires placed { slice_get declared.now.spreads.items array ≡ Some None }
    ensures { OnOk result (IsFilledTo declared.now (filling_of filling.now) array contents.old contents.new) }
{
    let (lld, _columns) = declared.shapes.of(0, array);
    contents.fill_matrix(alloc, array, lld, filling)
}

// FILL: the words of a declared array.
fn fill_words(
    alloc: Global,
    declared: &Declared,
    contents: &mut ArrayContents,
    array: u32,
    filling: &Filling,
) -> Result<(), AllocError>
    requires holds { HoldsArrays declared.now.shapes contents.old }
    requires array { array < declared.now.shapes.count }
    ensures { OnOk result (IsFilledTo declared.now (filling_of filling.now) array contents.old contents.new) }
{
    match declared.spreads.get(array as usize) {
        Some(Some(spread)) => fill_spread(alloc, declared, contents, array, spread, filling),
        Some(None) => fill_placed(alloc, declared, contents, array, filling),
        None => unreachable!(),
    }
}

/// What is held after a FILL line.
pub(crate) fn fill(
    alloc: Global,
    held: Held,
    array: u32,
    filling: &Filling,
) -> Result<Held, AllocError>
    requires { array < held.declared.shapes.count }
    ensures declared { IfOk result (λ h. h.declared ≡ held.declared) }
    ensures done { (p : PlanView Operation) → IfOk result (λ h. standing h p ≡
        filled (filling_of filling.now) array (slice_get held.declared.spreads.items array) (standing held p)) }
{
    let Held {
        declared,
        mut contents,
    } = held;
    match fill_words(alloc, &declared, &mut contents, array, filling) {
        Ok(()) => Ok(Held { declared, contents }),
        Err(e) => Err(e),
    }
}
