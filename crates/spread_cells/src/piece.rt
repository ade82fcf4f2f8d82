//! A piece of a spread matrix as a matrix of its own.
ghost use Rattle.std.specs.Prelude.{◌≡◌, ◌≤◌, ◌^◌, length};

use mm_text::Whole;

/// The local array of a process: the whole matrix, and which of its rows and columns lie there, in their order. Where
/// there are none of them, the array has one row or column of zeros. It holds no element of its own.
#[derive(Drop)]
pub struct PieceCells<'a> {
    pub whole: &'a Whole,
    pub rows: &'a [u32],
    pub columns: &'a [u32],
    pub ghost rows_fit: { length rows.now ≤ 2 ^ 24 },
    pub ghost columns_fit: { length columns.now ≤ 2 ^ 24 },
}
