//! Grid programs as files of a store.
#![tactic(auto)]

mod bytes;
mod reading;

pub use reading::{ProgramErr, read_program};
