//! Commands as walks over files: what a walk asks for, and what a call leaves that follows it.
#![tactic(auto)]

mod status;

pub use status::Status;
