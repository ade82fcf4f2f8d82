//! A whole matrix that lies spread over the local arrays of a grid.
ghost use Rattle.std.specs.Prelude.{◌≡◌, ◌<◌, ◌≤◌, IfOk};
ghost use Rattle.index_tools.specs.Home.{row_spread, column_spread, local_rows, local_columns};
ghost use Rattle.spread_cells.specs.IndexHomes.{index_home};
ghost use Rattle.spread_cells.specs.LayoutView.{layout_view};
ghost use Rattle.spread_cells.specs.Joining.{HoldsSpread, JoinsByHome, array_at};
ghost use Rattle.spread_cells.specs.JoiningBack.{JoinsBack};

use crate::index_home::{IndexHome, homes_of};
use crate::layout::Layout;
use mm_text::Cells;
use pack_words::LocalArray;
use std::alloc::{AllocError, Global};
use std::marker::Model;

/// The matrix whose elements lie in these arrays, one array a process, by rows of the grid. It holds where each row and
/// each column lies, and no element.
#[derive(Drop)]
pub struct JoinedCells<'a> {
    layout: Layout,
    arrays: &'a [LocalArray],
    rows: Vec<IndexHome>,
    columns: Vec<IndexHome>,
}

impl<'a> Model for JoinedCells<'a> {
    ghost use Rattle.spread_cells.specs.Joining.{Joined};

    ghost Value = { Joined };

    ghost use Rattle.spread_cells.specs.JoinedView.{joined_view, IsJoined};

    ghost view = { joined_view };

    ghost invariant = { IsJoined };
}

impl<'a> JoinedCells<'a> {
    /// The matrix that these arrays hold, which are those of all processes by rows of the grid. Its memory is two numbers
    /// for each row and each column of the matrix.
    #[tactic(auto, using(crate::proofs::BackLaws::joins_back))]
    pub fn new(
        alloc: Global,
        layout: Layout,
        arrays: &'a [LocalArray],
    ) -> Result<JoinedCells<'a>, AllocError>
        requires { HoldsSpread (layout_view layout) arrays.now }
        ensures made { IfOk result (λ c. c ≡ record { layout = layout_view layout; arrays = arrays.now }) }
        ensures by_home { JoinsByHome (layout_view layout) arrays.now }
        ensures back { JoinsBack }
    {
        let rows = homes_of(alloc, layout.rows, layout.mb, layout.rsrc, layout.nprow)?;
        let columns = homes_of(alloc, layout.columns, layout.nb, layout.csrc, layout.npcol)?;
        Ok(JoinedCells {
            layout,
            arrays,
            rows,
            columns,
        })
    }

    // Where row `i` lies.
    #[inline]
    fn row_home(&self, i: u32) -> IndexHome
        requires { i < self.now.layout.rows }
        ensures home { result ≡ index_home (row_spread self.now.layout) i }
        ensures process { result.process < self.now.layout.nprow }
        ensures local { result.local < local_rows self.now.layout result.process }
    {
        self.rows[i as usize]
    }

    // Where column `j` lies.
    #[inline]
    fn column_home(&self, j: u32) -> IndexHome
        requires { j < self.now.layout.columns }
        ensures home { result ≡ index_home (column_spread self.now.layout) j }
        ensures process { result.process < self.now.layout.npcol }
        ensures local { result.local < local_columns self.now.layout result.process }
    {
        self.columns[j as usize]
    }

    // The array of process (`p`, `q`).
    #[inline]
    fn array(&self, p: u32, q: u32) -> &LocalArray
        requires row { p < self.now.layout.nprow }
        requires column { q < self.now.layout.npcol }
        ensures array { result.now ≡ array_at self.now.layout self.now.arrays p q }
        ensures rows { local_rows self.now.layout p ≤ result.now.lld }
        ensures columns { local_columns self.now.layout q ≤ result.now.cols }
    {
        &self.arrays[(p * self.layout.npcol + q) as usize]
    }
}

impl Cells for JoinedCells<'_> {
    ghost use Rattle.spread_cells.specs.JoinedMatrix.{matrix_of, matrix_whole};

    ghost matrix = { matrix_of };

    ghost whole = { matrix_whole };

    #[inline]
    fn rows(&self) -> u32 {
        self.layout.rows
    }

    #[inline]
    fn columns(&self) -> u32 {
        self.layout.columns
    }

    #[inline]
    fn word(&self, i: u32, j: u32) -> i32 {
        let row = self.row_home(i);
        let column = self.column_home(j);
        self.array(row.process, column.process)
            .get(row.local, column.local)
    }
}
