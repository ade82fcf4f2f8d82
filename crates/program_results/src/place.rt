//! Where the matrix of an ARRAY lies.
ghost use Rattle.std.specs.Prelude.{◌≡◌, ◌*◌, ◌<◌, ◌≤◌, IfOk, length};
ghost use Rattle.index_tools.specs.Home.{row_spread, column_spread, local_rows, local_columns};
ghost use Rattle.piece_file.specs.HeadView.{head_view};
ghost use Rattle.spread_cells.specs.LayoutView.{layout_view};
ghost use Rattle.spread_cells.specs.IndexHomes.{index_home};
ghost use Rattle.program_results.specs.Placed.{head_of};
ghost use Rattle.program_results.specs.Standing.{rank_at};

use crate::homes::Homes;
use piece_file::Head;
use spread_cells::{IndexHome, Layout};
use std::alloc::{AllocError, Global};
use std::marker::Model;

/// How a matrix is spread over a grid, the ranks of the grid row by row, and where its rows and columns lie.
#[derive(Drop)]
pub(crate) struct Place {
    layout: Layout,
    ranks: Vec<u32>,
    rows: Homes,
    columns: Homes,
}

impl Model for Place {
    ghost use Rattle.program_results.specs.Placed.{Placed};

    ghost Value = { Placed };

    ghost use Rattle.program_results.specs.PlaceView.{place_view, IsPlace};

    ghost view = { place_view };

    ghost invariant = { IsPlace };
}

// Of how many rows and columns there are tables: of all where words are looked up, and where there are any.
fn table_sizes(layout: &Layout, whole: bool) -> (u32, u32)
    ensures rows { result.0 ≤ layout.now.rows }
    ensures columns { result.1 ≤ layout.now.columns }
{
    if whole && layout.rows > 0 && layout.columns > 0 {
        (layout.rows, layout.columns)
    } else {
        (0, 0)
    }
}

impl Place {
    /// The place of a matrix that is spread so over these ranks. Where words of the whole matrix will be looked up, its memory
    /// is two numbers for each row and each column; a matrix without elements has none.
    pub(crate) fn new(
        alloc: Global,
        layout: Layout,
        ranks: &[u32],
        whole: bool,
    ) -> Result<Place, AllocError>
        requires { length ranks.now ≡ layout.nprow * layout.npcol }
        ensures { IfOk result (λ p. p ≡ record { layout = layout_view layout; ranks = ranks.now }) }
    {
        let ranks = Vec::from_slice(alloc, ranks)?;
        let (m, n) = table_sizes(&layout, whole);
        let rows = Homes::new(alloc, m, layout.mb, layout.rsrc, layout.nprow)?;
        let columns = Homes::new(alloc, n, layout.nb, layout.csrc, layout.npcol)?;
        Ok(Place {
            layout,
            ranks,
            rows,
            columns,
        })
    }

    /// The rows of the matrix.
    #[inline]
    pub(crate) fn rows(&self) -> u32
        ensures { result ≡ self.now.layout.rows }
    {
        self.layout.rows
    }

    /// The columns of the matrix.
    #[inline]
    pub(crate) fn columns(&self) -> u32
        ensures { result ≡ self.now.layout.columns }
    {
        self.layout.columns
    }

    /// The process columns of the grid.
    #[inline]
    pub(crate) fn npcol(&self) -> u32
        ensures columns { result ≡ self.now.layout.npcol }
        ensures some { 0 < result }
    {
        self.layout.npcol
    }

    /// The number of processes of the grid, which is that of its ranks.
    pub(crate) fn count(&self) -> u32
        ensures ranks { result ≡ length self.now.ranks }
        ensures grid { result ≡ self.now.layout.nprow * self.now.layout.npcol }
        ensures few { result ≤ 64 }
    {
        self.layout.nprow * self.layout.npcol
    }

    /// The rank of process (`p`, `q`).
    #[inline]
    pub(crate) fn rank(&self, p: u32, q: u32) -> u32
        requires row { p < self.now.layout.nprow }
        requires column { q < self.now.layout.npcol }
        ensures rank { result ≡ rank_at self.now p q }
        ensures filled { length self.now.ranks ≡ self.now.layout.nprow * self.now.layout.npcol }
    {
        self.ranks[(p * self.layout.npcol + q) as usize]
    }

    /// Where row `i` lies.
    #[inline]
    pub(crate) fn row(&self, i: u32) -> IndexHome
        requires { i < self.now.layout.rows }
        ensures home { result ≡ index_home (row_spread self.now.layout) i }
        ensures process { result.process < self.now.layout.nprow }
        ensures local { result.local < local_rows self.now.layout result.process }
    {
        self.rows.home(i)
    }

    /// Where column `j` lies.
    #[inline]
    pub(crate) fn column(&self, j: u32) -> IndexHome
        requires { j < self.now.layout.columns }
        ensures home { result ≡ index_home (column_spread self.now.layout) j }
        ensures process { result.process < self.now.layout.npcol }
        ensures local { result.local < local_columns self.now.layout result.process }
    {
        self.columns.home(j)
    }

    /// What the piece of process `k` says of its place, where its local array has this leading dimension.
    pub(crate) fn head(&self, k: u32, lld: u32) -> Head
        ensures { head_view result ≡ head_of self.now.layout k lld }
    {
        Head {
            nprow: self.layout.nprow,
            npcol: self.layout.npcol,
            prow: k / self.layout.npcol,
            pcol: k % self.layout.npcol,
            m: self.layout.rows,
            n: self.layout.columns,
            mb: self.layout.mb,
            nb: self.layout.nb,
            rsrc: self.layout.rsrc,
            csrc: self.layout.csrc,
            lld,
        }
    }
}
