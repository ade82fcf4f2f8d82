//! The pieces of a matrix, moved to another distribution.
#![tactic(auto)]

mod arguments;
mod arrays;
mod distribution;
mod grids;
mod heads;
mod moving;
mod plans;
mod sizes;
mod words;

pub use arguments::first_head;
pub use arrays::arrays_of;
pub use distribution::Distribution;
pub use moving::{MovedPieces, finish, move_pieces, move_pieces_by};
pub use plans::{PlannedMove, plan_pieces};
pub use words::{pieces_words, words_of_move, words_over};
