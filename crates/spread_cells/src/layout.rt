//! How a matrix is spread over a grid of processes.
ghost use Rattle.std.specs.Prelude.{◌*◌, ◌^◌, ◌<◌, ◌≤◌};

/// A matrix of `rows` by `columns` elements in blocks of `mb` by `nb`, over a grid of `nprow` by `npcol` processes: at
/// most 2^24 rows, columns and rows or columns of a block, and at most 64 processes. The first block lies on the process
/// (`rsrc`, `csrc`). ScaLAPACK Users' Guide, "Array Descriptor for In-core Dense Matrices".
#[derive(Clone, Copy, Debug)]
pub struct Layout {
    pub rows: u32,
    pub columns: u32,
    pub mb: u32,
    pub nb: u32,
    pub rsrc: u32,
    pub csrc: u32,
    pub nprow: u32,
    pub npcol: u32,
    pub ghost rows_fit: { rows ≤ 2 ^ 24 },
    pub ghost columns_fit: { columns ≤ 2 ^ 24 },
    pub ghost row_block: { 1 ≤ mb },
    pub ghost row_block_fits: { mb ≤ 2 ^ 24 },
    pub ghost column_block: { 1 ≤ nb },
    pub ghost column_block_fits: { nb ≤ 2 ^ 24 },
    pub ghost row_source: { rsrc < nprow },
    pub ghost column_source: { csrc < npcol },
    pub ghost grid: { nprow * npcol ≤ 64 },
}
