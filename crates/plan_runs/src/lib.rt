//! Ways to run a plan of rank operations on the memories of its ranks to its end.
#![tactic(auto)]

mod one_thread;
mod runner;

pub use one_thread::OneThread;
pub use runner::Runner;
