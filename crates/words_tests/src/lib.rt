//! Tests of local words: the elements that shapes select, and each operation of a rank in plans that are run.
#![tactic(auto)]

pub mod able;
pub mod checks;
#[cfg(test)]
mod combines;
#[cfg(test)]
mod moves;
#[cfg(test)]
mod pictures;
pub mod trial;
