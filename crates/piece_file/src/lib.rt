//! Piece files: the local array of one process with the line that tells where it belongs, read and written.
#![tactic(auto)]

mod checks;
mod desc_line;
mod fault;
mod gathering;
mod head;
mod name;
mod piece;
mod reading;
mod turn;
mod writing;

pub use fault::{PieceErr, PieceFault};
pub use gathering::{gather_pieces, read_piece};
pub use head::Head;
pub use name::{Name, piece_name};
pub use piece::Piece;
pub use writing::{write_cells, write_piece};
