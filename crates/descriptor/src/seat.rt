//! The place of a process on a grid.

ghost use Rattle.std.specs.Prelude.{◌≤◌, ◌<◌};

/// What a check asks of a process: its process row, and how many process rows and columns its grid has.
#[derive(Clone, Copy, Debug, PartialEq, Eq)]
pub struct Seat {
    pub nprow: u32,
    pub npcol: u32,
    pub row: u32,
    ghost few: { nprow ≤ 64 },
    ghost some_columns: { 0 < npcol },
    ghost row_below: { row < nprow },
}
