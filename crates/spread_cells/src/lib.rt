//! Matrices that are spread block-cyclically over the local arrays of a grid, read word by word: the whole matrix that
//! lies in local arrays, and the local arrays that a whole matrix gives.
#![tactic(auto)]

mod index_home;
mod joined_cells;
mod layout;
mod owned;
mod piece;
mod piece_cells;

pub use index_home::{IndexHome, homes_of};
pub use joined_cells::JoinedCells;
pub use layout::Layout;
pub use owned::owned_lists;
pub use piece::PieceCells;
