//! Grids are declared.

ghost use Rattle.std.specs.Prelude.{◌≡◌, ◌<◌, ℕ, length, slice_index, None, IfOk, IfErr};
ghost use Rattle.msg_core.specs.Plans.{PlanView};
ghost use Rattle.pack_words.specs.declared.rank_op.RankOp.{RankOp as Operation};
ghost use Rattle.pack_words.specs.GridState.{GridState};
ghost use Rattle.pack_words.specs.GridPlans.{IsOf};
ghost use Rattle.program_meaning.specs.Declarations.{grid_line};
ghost use Rattle.line_plans.specs.Halts.{grid_halt_of};
ghost use Rattle.line_plans.specs.Exact.{IsExact};
ghost use Rattle.line_plans.specs.Standing.{state_of, IsGrown, HasGridMore, IsGridMore, AreSizes};

use crate::declared::Declared;
use crate::grown::Grown;
use crate::halt::Halt;
use proc_grid::{Context, GridErr, Order, World, gridinit};
use program_meaning::ExecFault;
use std::alloc::Global;

// The world of the ranks.
pub(crate) fn world_of(declared: &Declared) -> World
    ensures { result.ranks ≡ declared.now.shapes.ranks }
{
    match World::new(declared.shapes.ranks()) {
        Some(world) => world,
        None => unreachable!(),
    }
}

// One grid more, of ranks of the world.
fn add_grid(declared: Declared, ctx: Context) -> Result<Declared, Halt>
    requires within { (k : ℕ) → k < length ctx.ranks → slice_index ctx.ranks k < declared.shapes.ranks }
    requires room { length declared.contexts < 16 }
    ensures ok { IfOk result (λ after. HasGridMore declared after ctx) }
    ensures err { IfErr result (λ e. e ≡ Halt.NoMemory) }
{
    let Declared {
        mut contexts,
        shapes,
        spreads,
        words,
    } = declared;
    match contexts.add(ctx) {
        Ok(_number) => Ok(Declared {
            contexts,
            shapes,
            spreads,
            words,
        }),
        Err(_) => Err(Halt::NoMemory),
    }
}

/// One grid more, of ranks of the world.
pub(crate) fn with_grid(declared: Declared, ctx: Context) -> Result<Grown, Halt>
    requires within { (k : ℕ) → k < length ctx.ranks → slice_index ctx.ranks k < declared.shapes.ranks }
    requires room { length declared.contexts < 16 }
    ensures ok { IfOk result (λ x. HasGridMore declared x.declared ctx) }
    ensures sizes { IfOk result (λ x. x.sizes ≡ None) }
    ensures each { IfOk result (λ x. AreSizes x.sizes) }
    ensures err { IfErr result (λ e. e ≡ Halt.NoMemory) }
{
    match add_grid(declared, ctx) {
        Ok(declared) => Ok(Grown {
            declared,
            sizes: None,
        }),
        Err(halt) => Err(halt),
    }
}

// A grid's refusal as that of its line.
pub(crate) fn grid_halt(e: GridErr) -> Halt
    ensures { result ≡ grid_halt_of e }
{
    match e {
        GridErr::NoMemory => Halt::NoMemory,
        other => Halt::Fault(ExecFault::Grid(other)),
    }
}

/// GRID: the ranks from 0 on, dealt out by rows or by columns.
pub(crate) fn declare_grid(
    alloc: Global,
    declared: Declared,
    order: Order,
    nprow: u32,
    npcol: u32,
) -> Result<Grown, Halt>
    requires room { length declared.contexts < 16 }
    ensures more { IfOk result (λ x. IsGridMore declared x.declared) }
    ensures sizes { IfOk result (λ x. AreSizes x.sizes) }
    ensures done { (p : PlanView Operation) (state : GridState) → IsOf declared.shapes p state →
        IsExact declared.shapes state → IsGrown result p state (grid_line order nprow npcol (state_of declared p state)) }
{
    let world = world_of(&declared);
    match gridinit(alloc, &world, order, nprow, npcol) {
        Ok(ctx) => with_grid(declared, ctx),
        Err(e) => Err(grid_halt(e)),
    }
}
