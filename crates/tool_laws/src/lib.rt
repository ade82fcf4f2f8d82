//! Laws of the commands on files: `split`, `join` and `move` are cases of one plain move.
#![tactic(auto)]

mod laws;

pub use laws::commands_are_moves;
