//! Splitting, joining and moving a matrix are the plain move three times: only laws.
//!
//! The functions of this crate do nothing: each `ensures` is a law.
#![tactic(auto)]

mod laws;

pub use laws::{
    join_is_a_move, moved_is_joined_and_split, moved_is_split, one_piece, split_is_a_move,
};
