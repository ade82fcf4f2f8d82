//! Where the coordinates of the members that held the elements are written.

ghost use Rattle.std.specs.Prelude.{◌≡◌, ◌<◌};
ghost use Rattle.pack_words.specs.Coordinates.{coord_place};

use proc_grid::Scope;

/// The arrays RA and CA of a combine, and how the place of a member in its scope tells its row and column: the place k is
/// the process (k / npcol, k mod npcol) of the whole grid, (p, k) of row p, and (k, q) of column q. A User's Guide to the
/// BLACS, IGAMX2D.
#[derive(Clone, Copy, Debug, PartialEq, Eq)]
pub struct Coords {
    pub ra: u32,
    pub ca: u32,
    pub scope: Scope,
    /// The number of columns of the grid, at least 1.
    pub npcol: u32,
}

/// The row and column of the process at place `k` of the scope.
pub fn coordinates(coords: &Coords, k: u32) -> (u32, u32)
    requires { 0 < coords.now.npcol }
    ensures { result ≡ coord_place coords.now k }
{
    match coords.scope {
        Scope::All => (k / coords.npcol, k % coords.npcol),
        Scope::Row(row) => (row, k),
        Scope::Column(column) => (k, column),
    }
}
