//! What `check` and `run` do, as walks over files, and what is said of a fault in a program.
#![tactic(auto)]

mod faults;
mod opening;

pub use faults::{exec_phrase, lang_phrase};
pub use opening::open_program;
