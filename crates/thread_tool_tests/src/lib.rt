//! Tests of the top call with a thread for each rank.
#![tactic(auto)]

pub mod calls;
#[cfg(test)]
mod tests;
