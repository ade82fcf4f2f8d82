//! The top call: the commands, with a thread for each rank where the words ask for threads.
#![tactic(auto)]

mod moves;
mod programs;
mod tool;

pub use tool::gridtool;
