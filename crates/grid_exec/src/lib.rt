//! Grid programs are planned, checked and run.
#![tactic(auto)]

mod beginning;
mod check;
mod declaring;
mod err;
mod exchanges;
mod filling;
mod front;
mod held;
mod job;
mod loading;
mod nodes;
mod plan;
mod planning;
mod rooms;
mod running;
mod stopping;
mod summary;

pub use check::check_program;
pub use err::ExecErr;
pub use job::{Job, JobParts};
pub use plan::plan_program;
pub use program_meaning::ExecFault;
pub use running::{Mode, finish_by, run_program};
pub use summary::Summary;
