//! A large valid job from a number: a drawn matrix is moved from one grid to another and back.
#![tactic(auto)]

mod cells;
mod dealing;
mod drawing;
mod grids;
mod job;
mod moving;
mod rows;
mod sums;
mod totals;

pub use job::{Loaded, load_job};
