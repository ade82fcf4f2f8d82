//! A process grid over the ranks of a world.

ghost use Rattle.std.specs.Prelude.{◌≡◌, ℕ, ℤ, pos, ◌+◌, ◌*◌, ◌<◌, ◌≤◌, ◌==◌, IfOk, IfSome, length, map, position, slice_index};
ghost use Rattle.std.specs.List.{range_with_len};
ghost use Rattle.proc_grid.specs.Grid.{Grid, IsGrid, rank_at, place_of, natural, pnum_of, pcoord_of};
ghost use Rattle.proc_grid.specs.GridInfo.{gridinfo_of};
ghost use Rattle.proc_grid.specs.Scopes.{members};
ghost use Rattle.proc_grid.specs.declared.scope.Scope.TheVariants.{Row, Column, All};

use std::alloc::{AllocError, Global};
use std::marker::Model;

/// What a rank learns of a grid: its shape and the rank's place, or four times -1. A User's Guide to the BLACS,
/// `BLACS_GRIDINFO`.
#[derive(Clone, Copy, Debug, PartialEq, Eq)]
pub struct GridInfo {
    pub nprow: i32,
    pub npcol: i32,
    pub myrow: i32,
    pub mycol: i32,
}

// Where a rank stands in a list.
fn number_of(ranks: &[u32], rank: u32) -> Option<usize>
    ensures number { result ≡ position (λ r. r == rank) ranks.now }
    ensures within { IfSome result (λ number. number < length ranks.now) }
{
    ranks.iter().position(|held| *held == rank)
}

// So many elements of a list, from one on, each so far from the next.
fn every(
    alloc: Global,
    ranks: &[u32],
    first: u32,
    step: u32,
    count: u32,
) -> Result<Vec<u32>, AllocError>
    requires inside { (k : ℕ) → k < count → first + k * step < length ranks.now }
    requires few { length ranks.now ≤ 64 }
    ensures { IfOk result (λ picked. picked.items ≡ map (λ k. slice_index ranks.now (first + k * step))
        (range_with_len 0 count)) }
{
    let mut picked = Vec::with_capacity(alloc, count as usize)?;
    for k in 0..count {
        picked.push(ranks[(first + k * step) as usize])?;
    }
    Ok(picked)
}

/// A process grid: ranks at the places of a rectangle, each at one place at most.
#[derive(Debug, Drop)]
pub struct Context {
    nprow: u32,
    npcol: u32,
    // in row-major order
    ranks: Vec<u32>,
}

impl Model for Context {
    ghost use Rattle.proc_grid.specs.Grid.{Grid, IsGrid};

    ghost Value = { Grid };

    ghost view = { λ c. record { nprow = c.nprow; npcol = c.npcol; ranks = c.ranks.items } };

    ghost invariant = { λ c. IsGrid (record { nprow = c.nprow; npcol = c.npcol; ranks = c.ranks.items }) };
}

impl Context {
    // The grid with these ranks, row-major.
    pub(crate) fn new(nprow: u32, npcol: u32, ranks: Vec<u32>) -> Context
        requires { IsGrid (record { nprow = nprow; npcol = npcol; ranks = ranks.items }) }
        ensures made { result ≡ record { nprow = nprow; npcol = npcol; ranks = ranks.items } }
        ensures grid { IsGrid result }
    {
        Context {
            nprow,
            npcol,
            ranks,
        }
    }

    // What holds of every context.
    pub(crate) fn is_grid(&self)
        ensures grid { IsGrid self.now }
    {
        let _ = &self.ranks;
    }

    /// The number of process rows, 1 to 64.
    pub fn nprow(&self) -> u32
        ensures rows { result ≡ self.now.nprow }
        ensures grid { IsGrid self.now }
    {
        self.nprow
    }

    /// The number of process columns, 1 to 64.
    pub fn npcol(&self) -> u32
        ensures columns { result ≡ self.now.npcol }
        ensures grid { IsGrid self.now }
    {
        self.npcol
    }

    /// The ranks of the grid, in row-major order of their places.
    pub fn ranks(&self) -> &[u32]
        ensures ranks { result.now ≡ self.now.ranks }
        ensures grid { IsGrid self.now }
    {
        &self.ranks
    }

    // The place of a rank, if the rank is in the grid.
    fn place(&self, rank: u32) -> Option<(u32, u32)>
        ensures place { result ≡ place_of self.now rank }
        ensures row { IfSome result (λ place. place.0 < 64) }
        ensures column { IfSome result (λ place. place.1 < 64) }
        ensures grid { IsGrid self.now }
    {
        match number_of(&self.ranks, rank) {
            Some(number) => Some((number as u32 / self.npcol, number as u32 % self.npcol)),
            None => None,
        }
    }

    /// The rank at the place (`prow`, `pcol`), counted from 0. None exactly where the place isn't in the grid.
    pub fn rank_at(&self, prow: u32, pcol: u32) -> Option<u32>
        ensures rank { result ≡ rank_at self.now prow pcol }
        ensures few { IfSome result (λ rank. rank < 64) }
        ensures grid { IsGrid self.now }
    {
        if prow >= self.nprow || pcol >= self.npcol {
            return None;
        }
        Some(self.ranks[(prow * self.npcol + pcol) as usize])
    }

    /// The shape of the grid and the place of `rank` in it. All four numbers are -1 exactly where the rank isn't in
    /// the grid. A User's Guide to the BLACS, `BLACS_GRIDINFO`.
    pub fn gridinfo(&self, rank: u32) -> GridInfo
        ensures { result ≡ gridinfo_of self.now rank }
    {
        match self.place(rank) {
            Some((row, column)) => GridInfo {
                nprow: self.nprow as i32,
                npcol: self.npcol as i32,
                myrow: row as i32,
                mycol: column as i32,
            },
            None => GridInfo {
                nprow: -1,
                npcol: -1,
                myrow: -1,
                mycol: -1,
            },
        }
    }

    /// The rank at the place (`prow`, `pcol`), or -1 where that isn't in the grid. A User's Guide to the BLACS,
    /// `BLACS_PNUM`.
    pub fn pnum(&self, prow: i32, pcol: i32) -> i32
        ensures rank { result ≡ pnum_of self.now prow pcol }
        ensures back { (r : ℕ) → result ≡ pos r → pcoord_of self.now result ≡ (prow, pcol) }
    {
        if prow < 0 || pcol < 0 {
            return -1;
        }
        match self.rank_at(prow as u32, pcol as u32) {
            Some(rank) => rank as i32,
            None => -1,
        }
    }

    /// The place of `rank`, or (-1, -1) where the rank isn't in the grid. A User's Guide to the BLACS,
    /// `BLACS_PCOORD`.
    pub fn pcoord(&self, rank: i32) -> (i32, i32)
        ensures place { result ≡ pcoord_of self.now rank }
        ensures back { (p : ℕ) → result.0 ≡ pos p → pnum_of self.now result.0 result.1 ≡ rank }
    {
        if rank < 0 {
            return (-1, -1);
        }
        match self.place(rank as u32) {
            Some((row, column)) => (row as i32, column as i32),
            None => (-1, -1),
        }
    }

    // The ranks of a process row, by increasing column.
    pub(crate) fn row_members(&self, alloc: Global, row: u32) -> Result<Vec<u32>, AllocError>
        requires { row < self.now.nprow }
        ensures { IfOk result (λ ranks. ranks.items ≡ members self.now (Row row)) }
    {
        every(alloc, &self.ranks, row * self.npcol, 1, self.npcol)
    }

    // The ranks of a process column, by increasing row.
    pub(crate) fn column_members(&self, alloc: Global, column: u32) -> Result<Vec<u32>, AllocError>
        requires { column < self.now.npcol }
        ensures { IfOk result (λ ranks. ranks.items ≡ members self.now (Column column)) }
    {
        every(alloc, &self.ranks, column, self.npcol, self.nprow)
    }

    // The ranks of the grid, row-major.
    pub(crate) fn all_members(&self, alloc: Global) -> Result<Vec<u32>, AllocError>
        ensures { IfOk result (λ ranks. ranks.items ≡ members self.now All) }
    {
        Vec::from_slice(alloc, &self.ranks)
    }
}
