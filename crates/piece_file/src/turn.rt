//! Whose turn it is where pieces are read one after the other.
ghost use Rattle.std.specs.Prelude.{◌≤◌, ◌^◌};

use crate::head::Head;

/// What is asked of the next piece: the process row and column that its name tells, the head of the first piece where this
/// isn't the first, and the number of words of the pieces before it.
#[derive(Clone, Copy)]
pub(crate) struct Turn {
    pub(crate) prow: u32,
    pub(crate) pcol: u32,
    pub(crate) first: Option<Head>,
    pub(crate) before: u64,
    pub(crate) ghost few: { before ≤ 2 ^ 26 },
}
