//! Tests of the words and of the whole tool, and how they run it.
#![tactic(auto)]

pub mod running;
#[cfg(test)]
mod tools;
#[cfg(test)]
mod words;
