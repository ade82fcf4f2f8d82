//! Why a line of a program is refused.

use descriptor::Info;
use proc_grid::GridErr;
use scope_ops::ScopeErr;

/// Why a line of a program is refused. Out of memory is none of them.
#[derive(Clone, Copy, Debug, PartialEq, Eq)]
pub enum ExecFault {
    /// GRID or MAP: the grid's.
    Grid(GridErr),
    /// ARRAY: that of DESCINIT. GEMR2D or TRMR2D: that of the move.
    Info(Info),
    /// A message, a broadcast, a combine or a barrier: the call's.
    Scope(ScopeErr),
    /// A move from an array to itself.
    SameArray,
    /// A move after which the program would have more than 2^20 operations.
    TooManyOps,
    /// A message from the first rank to the second waits, which the line's own messages would run into.
    Waiting(u32, u32),
    /// The words of all arrays and of all messages so far: more than 2^26.
    TooLarge(u64),
    /// LOAD: rows and columns of the file, and rows and columns of the array.
    Size(u32, u32, u32, u32),
}
