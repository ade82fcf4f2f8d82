//! Plans run with one thread for each rank, or with fewer: what each rank's memory and desk are at the end is what the plan's own order gives.
#![tactic(auto)]

mod deal;
mod fan;
mod gate;
mod outfit;
mod post;
mod ready;
mod tasks;
mod turn;

pub use gate::{Gate, OpenGate};
pub use ready::Ready;
