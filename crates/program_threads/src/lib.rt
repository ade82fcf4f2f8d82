//! Plans of rank operations, moves of pieces and grid programs run with one thread for each rank.
#![tactic(auto)]

mod moves;
mod plans;
mod programs;

pub use moves::move_pieces_threads;
pub use plans::run_plan_threads;
pub use programs::run_program_threads;
