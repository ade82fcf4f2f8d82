//! Where the indices of one dimension lie.
ghost use Rattle.std.specs.Prelude.{◌≡◌, ◌^◌, ◌<◌, ◌≤◌, IfOk};
ghost use Rattle.index_tools.specs.Spread.{spread};
ghost use Rattle.spread_cells.specs.IndexHomes.{index_homes};

use index_tools::{indxg2l, indxg2p};
use std::alloc::{AllocError, Global};

/// The process that an index lies on, and its local index there, both counted from 0.
#[derive(Clone, Copy)]
pub struct IndexHome {
    pub process: u32,
    pub local: u32,
}

/// Where each of the indices below `n` lies, in their order, where blocks of `block` indices are dealt out to the processes in
/// turn, the first block to the process `source`. Its memory is two numbers for each index.
#[tactic(auto, using(crate::proofs::HomeTables::homes_more))]
pub fn homes_of(
    alloc: Global,
    n: u32,
    block: u32,
    source: u32,
    processes: u32,
) -> Result<Vec<IndexHome>, AllocError>
    requires size { n ≤ 2 ^ 24 }
    requires block { 1 ≤ block }
    requires block_fits { block ≤ 2 ^ 24 }
    requires processes { processes ≤ 64 }
    requires source { source < processes }
    ensures { IfOk result (λ v. v.items ≡ index_homes (spread block source processes) n) }
{
    let mut homes = Vec::with_capacity(alloc, n as usize)?;
    for index in 0..n {
        let process = indxg2p(index + 1, block, 0, source, processes);
        let local = indxg2l(index + 1, block, 0, source, processes) - 1;
        homes.push(IndexHome { process, local })?;
    }
    Ok(homes)
}
