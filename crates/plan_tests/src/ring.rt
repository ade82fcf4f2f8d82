//! A ring of 64 ranks.
ghost use Rattle.std.specs.Prelude.{◌≡◌, IfOk, length};

use crate::cell::{Cell, CellOp};
use crate::stages::{get, give};
use msg_core::{Plan, PlanErr};
use std::alloc::{AllocError, Global};

/// So often each of 64 ranks sends its word to the next rank, and then each receives.
pub fn ring_plan(alloc: Global, rounds: u32) -> Result<Plan<CellOp>, PlanErr>
    ensures { IfOk result (λ p. p.ranks ≡ 64) }
{
    let Ok(mut plan) = Plan::new(alloc, 64) else {
        return Err(PlanErr::NoMemory);
    };
    for _ in 0..rounds {
        send_around(&mut plan)?;
        take_around(&mut plan)?;
    }
    Ok(plan)
}

// Each rank sends to the next.
fn send_around(plan: &mut Plan<CellOp>) -> Result<(), PlanErr>
    requires { plan.old.ranks ≡ 64 }
    ensures { plan.new.ranks ≡ 64 }
{
    for rank in 0..64u32 {
        give(plan, rank, (rank + 1) % 64, 1)?;
    }
    Ok(())
}

// And takes from the one before it.
fn take_around(plan: &mut Plan<CellOp>) -> Result<(), PlanErr>
    requires { plan.old.ranks ≡ 64 }
    ensures { plan.new.ranks ≡ 64 }
{
    for rank in 0..64u32 {
        get(plan, (rank + 63) % 64, rank, 1)?;
    }
    Ok(())
}

/// Cells whose words are their ranks.
pub fn ring_nodes(alloc: Global) -> Result<Vec<Cell>, AllocError>
    ensures { IfOk result (λ v. length v.items ≡ 64) }
{
    let mut nodes = Vec::new(alloc);
    for rank in 0..64u32 {
        nodes.push(Cell::new(rank as i32))?;
    }
    Ok(nodes)
}
