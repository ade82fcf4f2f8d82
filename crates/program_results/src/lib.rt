//! The results of a grid program: the files that its SAVE lines write and the text that its PRINT lines print.
#![tactic(auto)]

mod asking;
mod cells;
mod ends;
mod file;
mod finished;
mod homes;
mod laws;
mod pen;
mod place;
mod placing;
mod printing;
mod writing;

pub use ends::Ends;
pub use finished::Finished;
pub use laws::results_are_the_programs;
pub use save_list::SaveErr;
