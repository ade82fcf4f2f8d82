//! Where the indices of one dimension lie.
ghost use Rattle.std.specs.Prelude.{◌≡◌, ◌^◌, ◌<◌, ◌≤◌, IfOk};
ghost use Rattle.index_tools.specs.Spread.{spread};
ghost use Rattle.spread_cells.specs.IndexHomes.{index_home};

use index_tools::{indxg2l, indxg2p};
use spread_cells::{IndexHome, homes_of};
use std::alloc::{AllocError, Global};
use std::marker::Model;

/// Where the indices of one dimension lie, whose blocks are dealt out to processes in turn: the first of them by a table, the
/// others by the rule.
#[derive(Drop)]
pub(crate) struct Homes {
    table: Vec<IndexHome>,
    block: u32,
    source: u32,
    processes: u32,
}

impl Model for Homes {
    ghost use Rattle.index_tools.specs.Spread.{Spread};

    ghost Value = { Spread };

    ghost use Rattle.program_results.specs.HomesView.{homes_view, AreHomes};

    ghost view = { homes_view };

    ghost invariant = { AreHomes };
}

impl Homes {
    /// Blocks of `block` indices, the first of them on the process `source`, with a table of the indices below `n`. Its memory
    /// is two numbers for each of these.
    pub(crate) fn new(
        alloc: Global,
        n: u32,
        block: u32,
        source: u32,
        processes: u32,
    ) -> Result<Homes, AllocError>
        requires size { n ≤ 2 ^ 24 }
        requires block { 1 ≤ block }
        requires block_fits { block ≤ 2 ^ 24 }
        requires processes { processes ≤ 64 }
        requires source { source < processes }
        ensures { IfOk result (λ h. h ≡ spread block source processes) }
    {
        let table = homes_of(alloc, n, block, source, processes)?;
        Ok(Homes {
            table,
            block,
            source,
            processes,
        })
    }

    // Where an index lies, by the rule.
    fn by_rule(&self, index: u32) -> IndexHome
        requires { index < 2 ^ 24 }
        ensures { result ≡ index_home self.now index }
    {
        let process = indxg2p(index + 1, self.block, 0, self.source, self.processes);
        let local = indxg2l(index + 1, self.block, 0, self.source, self.processes) - 1;
        IndexHome { process, local }
    }

    /// Where an index lies.
    #[inline]
    pub(crate) fn home(&self, index: u32) -> IndexHome
        requires { index < 2 ^ 24 }
        ensures { result ≡ index_home self.now index }
    {
        match self.table.get(index as usize) {
            Some(home) => *home,
            None => self.by_rule(index),
        }
    }
}
