//! The matrix of an ARRAY, word by word, out of the memories of ranks.
ghost use Rattle.std.specs.Prelude.{◌≡◌, ◌*◌, ◌<◌, ◌≤◌, map};
ghost use Rattle.index_tools.specs.Home.{row_spread, column_spread, local_rows, local_columns};
ghost use Rattle.spread_cells.specs.IndexHomes.{index_home};
ghost use Rattle.pack_words.specs.GridState.{arrays_held};
ghost use Rattle.mr2d.specs.Homes.{cells_of};
ghost use Rattle.spread_cells.specs.Joining.{array_at};
ghost use Rattle.program_results.specs.Placed.{arrays_on, cells_on};
ghost use Rattle.program_results.specs.Standing.{HasCells, HoldsParts};

use crate::place::Place;
use mm_text::Cells;
use pack_words::{LocalArray, RankMem};
use spread_cells::IndexHome;
use std::marker::Model;

/// The array of a rank.
#[inline]
pub(crate) fn cells_at(nodes: &[RankMem], rank: u32, array: u32) -> &LocalArray
    requires { HasCells (map arrays_held nodes.now) rank array }
    ensures { result.now ≡ cells_of (map arrays_held nodes.now) rank array }
{
    match nodes[rank as usize].array(array) {
        Some(cells) => cells,
        None => unreachable!(),
    }
}

/// The local array of process `process`, by rows of the grid.
#[tactic(auto, using(crate::proofs::CellLaws::piece_is, crate::proofs::CellLaws::row_below, crate::proofs::CellLaws::column_below))]
pub(crate) fn piece_cells<'a>(
    place: &Place,
    nodes: &'a [RankMem],
    array: u32,
    process: u32,
) -> &'a LocalArray
    requires parts { HoldsParts (map arrays_held nodes.now) array place.now }
    requires process { process < place.now.layout.nprow * place.now.layout.npcol }
    ensures { result.now ≡ cells_on (map arrays_held nodes.now) array place.now process }
{
    let npcol = place.npcol();
    cells_at(nodes, place.rank(process / npcol, process % npcol), array)
}

/// The matrix whose elements lie in these memories, in the arrays of one number. It holds no element.
#[derive(Drop)]
pub(crate) struct ArrayCells<'a> {
    place: &'a Place,
    nodes: &'a [RankMem],
    array: u32,
}

impl<'a> Model for ArrayCells<'a> {
    ghost use Rattle.spread_cells.specs.Joining.{Joined};

    ghost Value = { Joined };

    ghost use Rattle.program_results.specs.CellsView.{cells_view, IsArrayCells};

    ghost view = { cells_view };

    ghost invariant = { IsArrayCells };
}

impl<'a> ArrayCells<'a> {
    /// The matrix of this place.
    pub(crate) fn new(place: &'a Place, nodes: &'a [RankMem], array: u32) -> ArrayCells<'a>
        requires { HoldsParts (map arrays_held nodes.now) array place.now }
        ensures { result ≡ record { layout = place.now.layout; arrays = arrays_on (map arrays_held nodes.now) array place.now.ranks } }
    {
        ArrayCells {
            place,
            nodes,
            array,
        }
    }

    // Where row `i` lies.
    #[inline]
    fn row_home(&self, i: u32) -> IndexHome
        requires { i < self.now.layout.rows }
        ensures home { result ≡ index_home (row_spread self.now.layout) i }
        ensures process { result.process < self.now.layout.nprow }
        ensures local { result.local < local_rows self.now.layout result.process }
    {
        self.place.row(i)
    }

    // Where column `j` lies.
    #[inline]
    fn column_home(&self, j: u32) -> IndexHome
        requires { j < self.now.layout.columns }
        ensures home { result ≡ index_home (column_spread self.now.layout) j }
        ensures process { result.process < self.now.layout.npcol }
        ensures local { result.local < local_columns self.now.layout result.process }
    {
        self.place.column(j)
    }

    // The local array of process (`p`, `q`).
    #[inline]
    fn cells(&self, p: u32, q: u32) -> &LocalArray
        requires row { p < self.now.layout.nprow }
        requires column { q < self.now.layout.npcol }
        ensures array { result.now ≡ array_at self.now.layout self.now.arrays p q }
        ensures rows { local_rows self.now.layout p ≤ result.now.lld }
        ensures columns { local_columns self.now.layout q ≤ result.now.cols }
    {
        cells_at(self.nodes, self.place.rank(p, q), self.array)
    }
}

impl Cells for ArrayCells<'_> {
    ghost use Rattle.spread_cells.specs.JoinedMatrix.{matrix_of, matrix_whole};

    ghost matrix = { matrix_of };

    ghost whole = { matrix_whole };

    #[inline]
    fn rows(&self) -> u32 {
        self.place.rows()
    }

    #[inline]
    fn columns(&self) -> u32 {
        self.place.columns()
    }

    #[inline]
    fn word(&self, i: u32, j: u32) -> i32 {
        let row = self.row_home(i);
        let column = self.column_home(j);
        self.cells(row.process, column.process)
            .get(row.local, column.local)
    }
}
