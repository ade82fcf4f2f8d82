//! Grids are declared by a list of ranks.

ghost use Rattle.std.specs.Prelude.{◌≡◌, ◌<◌, ◌*◌, ◌≤◌, length, map, IfOk};
ghost use Rattle.std.specs.List.{range_with_len};
ghost use Rattle.msg_core.specs.Plans.{PlanView};
ghost use Rattle.pack_words.specs.declared.rank_op.RankOp.{RankOp as Operation};
ghost use Rattle.pack_words.specs.GridState.{GridState};
ghost use Rattle.pack_words.specs.GridPlans.{IsOf};
ghost use Rattle.program_meaning.specs.Declarations.{map_line};
ghost use Rattle.line_plans.specs.Exact.{IsExact};
ghost use Rattle.line_plans.specs.Maps.{column_entry};
ghost use Rattle.line_plans.specs.Standing.{state_of, IsGrown, IsGridMore, AreSizes};

use crate::declared::Declared;
use crate::grids::{grid_halt, with_grid, world_of};
use crate::grown::Grown;
use crate::halt::Halt;
use grid_lang::MapRanks;
use proc_grid::gridmap;
use std::alloc::{AllocError, Global};

// More ranks than a line can list.
const LONGEST_LIST: usize = 4096;

// A list by rows as a map by columns.
#[tactic(auto, using(crate::proofs::MapLines::column_inside, crate::proofs::MapLines::some_rows, crate::proofs::MapLines::one_more))]
fn by_columns(alloc: Global, listed: &[u32], nprow: u32, npcol: u32) -> Result<Vec<u32>, AllocError>
    requires whole { length listed.now ≡ nprow * npcol }
    requires short { length listed.now ≤ 4096 }
    ensures { IfOk result (λ m. m.items ≡ map (column_entry listed.now nprow npcol) (range_with_len 0 (nprow * npcol))) }
{
    let mut all = Vec::with_capacity(alloc, listed.len())?;
    for k in 0..listed.len() as u32 {
        all.push(listed[(k % nprow * npcol + k / nprow) as usize])?;
    }
    Ok(all)
}

/// MAP: the ranks that the line lists, row by row.
pub(crate) fn declare_map(
    alloc: Global,
    declared: Declared,
    nprow: u32,
    npcol: u32,
    ranks: &MapRanks,
) -> Result<Grown, Halt>
    requires room { length declared.contexts < 16 }
    requires whole { length ranks.now ≡ nprow * npcol }
    ensures more { IfOk result (λ x. IsGridMore declared x.declared) }
    ensures sizes { IfOk result (λ x. AreSizes x.sizes) }
    ensures done { (p : PlanView Operation) (state : GridState) → IsOf declared.shapes p state →
        IsExact declared.shapes state → IsGrown result p state (map_line nprow npcol ranks.now (state_of declared p state)) }
{
    let listed = ranks.as_slice();
    if listed.len() > LONGEST_LIST {
        return Err(Halt::NoMemory);
    }
    let world = world_of(&declared);
    let Ok(usermap) = by_columns(alloc, listed, nprow, npcol) else {
        return Err(Halt::NoMemory);
    };
    match gridmap(alloc, &world, &usermap, nprow, nprow, npcol) {
        Ok(ctx) => with_grid(declared, ctx),
        Err(e) => Err(grid_halt(e)),
    }
}
