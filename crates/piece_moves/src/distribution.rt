//! Block-cyclic distributions whose first block lies in process (0, 0).
ghost use Rattle.std.specs.Prelude.{◌≤◌, ◌*◌, ◌^◌};

/// A grid of P by Q processes, at most 64, and blocks of MB by NB, each 1 to 2^24.
#[derive(Clone, Copy, Debug)]
pub struct Distribution {
    pub nprow: u32,
    pub npcol: u32,
    pub mb: u32,
    pub nb: u32,
    pub ghost rows: { 1 ≤ nprow },
    pub ghost columns: { 1 ≤ npcol },
    pub ghost grid: { nprow * npcol ≤ 64 },
    pub ghost row_block: { 1 ≤ mb },
    pub ghost row_block_fits: { mb ≤ 2 ^ 24 },
    pub ghost column_block: { 1 ≤ nb },
    pub ghost column_block_fits: { nb ≤ 2 ^ 24 },
}
