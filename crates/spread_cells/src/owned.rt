//! The indices of one dimension that each process owns.
ghost use Rattle.std.specs.Prelude.{◌≡◌, ◌<◌, ◌≤◌, ◌^◌, IfOk};
ghost use Rattle.index_tools.specs.Spread.{spread};
ghost use Rattle.spread_cells.specs.Spreading.{owned};
ghost use Rattle.spread_cells.specs.Owned.{lists_of, owned_by};

use index_tools::{indxl2g, numroc};
use std::alloc::{AllocError, Global};

// The indices below `n` that a process owns, in increasing order.
#[tactic(auto, using(index_tools::proofs::HomeLemmas::index_below, crate::proofs::OwnedLemmas::owned_more, crate::proofs::OwnedLemmas::owned_all))]
fn owned_indices(
    alloc: Global,
    n: u32,
    block: u32,
    process: u32,
    source: u32,
    processes: u32,
) -> Result<Vec<u32>, AllocError>
    requires size { n ≤ 2 ^ 24 }
    requires block { 1 ≤ block }
    requires block_fits { block ≤ 2 ^ 24 }
    requires processes { processes ≤ 64 }
    requires process { process < processes }
    requires source { source < processes }
    ensures { IfOk result (λ v. v.items ≡ owned (spread block source processes) process n) }
{
    let count = numroc(n, block, process, source, processes);
    let mut indices = Vec::with_capacity(alloc, count as usize)?;
    for place in 0..count {
        let index = indxl2g(place + 1, block, process, source, processes) - 1;
        indices.push(index as u32)?;
    }
    Ok(indices)
}

/// The lists of the indices below `n` that the processes own, process by process, where blocks of `block` indices are
/// dealt out in turn, the first block to the process `source`. Each list is in increasing order.
#[tactic(auto, using(crate::proofs::OwnedLists::lists_more))]
pub fn owned_lists(
    alloc: Global,
    n: u32,
    block: u32,
    source: u32,
    processes: u32,
) -> Result<Vec<Vec<u32>>, AllocError>
    requires size { n ≤ 2 ^ 24 }
    requires block { 1 ≤ block }
    requires block_fits { block ≤ 2 ^ 24 }
    requires processes { processes ≤ 64 }
    requires source { source < processes }
    ensures { IfOk result (λ v. lists_of v.items ≡ owned_by (spread block source processes) n
        processes) }
{
    let mut lists = Vec::new(alloc);
    for process in 0..processes {
        let indices = owned_indices(alloc, n, block, process, source, processes)?;
        lists.push(indices)?;
    }
    Ok(lists)
}
