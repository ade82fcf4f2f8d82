//! Matrices over the grids of a test, and where their elements stand: owners and places are counted index by index.

ghost use Rattle.std.specs.Prelude.{◌<◌, ◌≤◌};

use descriptor::{Desc, Llds, Spread};
use proc_grid::Context;
use std::alloc::{AllocError, Global};

/// A matrix in blocks over a context, from the process `source` on. Each of its arrays has `more` rows than it needs.
#[derive(Clone, Copy, Debug)]
pub struct Matrix {
    pub ctxt: u32,
    pub sizes: (u32, u32),
    pub blocks: (u32, u32),
    pub source: (u32, u32),
    pub more: u32,
}

/// The process of each row and of each column, and how many rows or columns before it are that process's own.
#[derive(Drop)]
pub struct Homes {
    pub rows: Vec<(u32, u32)>,
    pub columns: Vec<(u32, u32)>,
}

// The same of the indices of one dimension.
fn owners(
    alloc: Global,
    indices: u32,
    nb: u32,
    first: u32,
    procs: u32,
) -> Result<Vec<(u32, u32)>, AllocError>
    requires nb { 0 < nb }
    requires procs { 0 < procs }
{
    let mut own = vec![in alloc; 0u32; procs as usize]?;
    let mut homes = Vec::with_capacity(alloc, indices as usize)?;
    for i in 0..indices {
        let owner = first.wrapping_add(i / nb) % procs;
        if let Some(count) = own.get_mut(owner as usize) {
            homes.push((owner, *count))?;
            *count = count.wrapping_add(1);
        }
    }
    Ok(homes)
}

// How many indices are a process's own.
fn count_own(homes: &[(u32, u32)], process: u32) -> u32 {
    let mut count = 0u32;
    for home in homes {
        if home.0 == process {
            count = count.wrapping_add(1);
        }
    }
    count
}

impl Matrix {
    /// Where its elements stand: None where a block is empty.
    pub fn homes(&self, alloc: Global, grid: &Context) -> Result<Option<Homes>, AllocError> {
        let (mb, nb) = self.blocks;
        let (nprow, npcol) = (grid.nprow(), grid.npcol());
        if mb == 0 || nb == 0 || nprow == 0 || npcol == 0 {
            return Ok(None);
        }
        let (rows, columns) = self.sizes;
        let (rsrc, csrc) = self.source;
        Ok(Some(Homes {
            rows: owners(alloc, rows, mb, rsrc, nprow)?,
            columns: owners(alloc, columns, nb, csrc, npcol)?,
        }))
    }

    /// The size of a rank's array: 1 by 0 outside the grid, else at least 1 by 1.
    fn size_on(&self, homes: &Homes, grid: &Context, rank: u32) -> (u32, u32)
        requires { rank < 64 }
    {
        let (p, q) = grid.pcoord(rank as i32);
        if p < 0 || q < 0 {
            return (1, 0);
        }
        let rows = count_own(&homes.rows, p as u32);
        let columns = count_own(&homes.columns, q as u32);
        (rows.max(1).wrapping_add(self.more), columns.max(1))
    }

    /// The sizes on all ranks.
    pub fn sizes_on_all(
        &self,
        alloc: Global,
        homes: &Homes,
        grid: &Context,
        ranks: u32,
    ) -> Result<Vec<(u32, u32)>, AllocError>
        requires { ranks ≤ 64 }
    {
        let mut sizes = Vec::new(alloc);
        for rank in 0..ranks {
            sizes.push(self.size_on(homes, grid, rank))?;
        }
        Ok(sizes)
    }

    /// Its descriptor, and the leading dimension on each process.
    pub fn spread(
        &self,
        alloc: Global,
        homes: &Homes,
        grid: &Context,
    ) -> Result<Spread, AllocError> {
        let mut llds = Vec::new(alloc);
        for rank in grid.ranks() {
            if *rank < 64 {
                llds.push(i64::from(self.size_on(homes, grid, *rank).0))?;
            }
        }
        Ok(Spread {
            desc: Desc {
                dtype: 1,
                ctxt: i64::from(self.ctxt),
                m: i64::from(self.sizes.0),
                n: i64::from(self.sizes.1),
                mb: i64::from(self.blocks.0),
                nb: i64::from(self.blocks.1),
                rsrc: i64::from(self.source.0),
                csrc: i64::from(self.source.1),
                lld: 0,
            },
            llds: Llds::new(llds),
        })
    }
}
