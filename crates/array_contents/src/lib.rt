//! The words of declared arrays before anything is exchanged: zeros, what FILL sets, and what LOAD sets.
#![tactic(auto)]

mod cells;
mod columns;
mod contents;
mod filling;
mod local_words;
mod ranks;
mod shares;

pub use contents::ArrayContents;
pub use filling::Filling;
