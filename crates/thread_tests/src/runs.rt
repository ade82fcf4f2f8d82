//! Cells that run on threads.
ghost use Rattle.std.specs.Prelude.{◌≡◌, IfOk, length};

use msg_core::{Plan, StageErr};
use plan_tests::cell::{Cell, CellOp};
use rank_runner::Ready;
use std::alloc::{AllocError, Global};

/// The plan with these cells, ready to run on threads: None where its messages are too long together, or out of memory.
pub fn ready_of<R: Sync>(
    rt: &R,
    alloc: Global,
    plan: Plan<CellOp>,
    cells: Vec<Cell>,
) -> Option<Ready<Cell>>
    requires { length cells.items ≡ plan.ranks }
{
    plan.facts();
    if plan.words() > 67108864 {
        return None;
    }
    match Ready::prepare(rt, alloc, plan, cells) {
        Ok(ready) => Some(ready),
        Err(StageErr { plan: _, nodes: _ }) => None,
    }
}

/// So many cells that hold 0.
pub fn zeros(alloc: Global, ranks: u32) -> Result<Vec<Cell>, AllocError>
    ensures { IfOk result (λ v. length v.items ≡ ranks) }
{
    let mut cells = Vec::with_capacity(alloc, ranks as usize)?;
    for _ in 0..ranks {
        cells.push(Cell::new(0))?;
    }
    Ok(cells)
}
