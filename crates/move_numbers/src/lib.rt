//! How many operations, messages, copies and words a move has, by the elements that it moves: definitions and laws.
#![tactic(auto)]

mod laws;

pub use laws::numbers_by_elements;
