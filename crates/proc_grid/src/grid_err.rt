//! Why a grid is refused.

ghost use Rattle.std.specs.Prelude.{◌≡◌};
ghost use Rattle.proc_grid.specs.declared.grid_err.GridErr.TheVariants.{NoMemory};

use std::alloc::AllocError;
use thiserror::Error;

/// Why a grid is refused, in the order of the tests.
#[derive(Clone, Copy, Debug, PartialEq, Eq, Error)]
pub enum GridErr {
    /// So many process rows and columns, of which one number is 0 or above 64.
    #[error("no grid of {0} by {1} processes")]
    BadShape(u32, u32),
    /// So many places, and so many ranks, which are fewer.
    #[error("grid of {0} processes, have {1}")]
    TooMany(u32, u32),
    /// A leading dimension below the number of process rows, or a map that is too short for it.
    #[error("leading dimension of the map")]
    BadLead,
    /// A number in the map that is no rank.
    #[error("no process {0}")]
    NoProcess(u32),
    /// A rank that stands at an earlier place of the map.
    #[error("process {0} named twice")]
    Twice(u32),
    /// No memory for the grid.
    #[error("no memory")]
    NoMemory,
}

impl From<AllocError> for GridErr {
    ghost from_gives = { λ _ e. e ≡ NoMemory };

    fn from(_: AllocError) -> GridErr {
        GridErr::NoMemory
    }
}
