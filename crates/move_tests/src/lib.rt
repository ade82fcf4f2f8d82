//! Tests of meets and moves, with the plain programs that they are compared with.
#![tactic(auto)]

pub mod able;
pub mod compare;
pub mod matrix;
#[cfg(test)]
mod meets;
pub mod memories;
#[cfg(test)]
mod moves;
#[cfg(test)]
mod runs;
pub mod trial;
pub mod walk;
pub mod words;
