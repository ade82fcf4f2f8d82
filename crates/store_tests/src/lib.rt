//! Tests of the stores and sinks.
#![tactic(auto)]

#[cfg(test)]
mod stores;
