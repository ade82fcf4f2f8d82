//! What a name stands for.

/// What a name stands for, by number: grids by themselves, arrays and matrices together.
#[derive(Clone, Copy, Debug, PartialEq, Eq)]
pub enum Named {
    Grid(u32),
    Array(u32),
    Matrix(u32),
}
