//! Tests of values that the reader's window cuts.
#![tactic(auto)]

#[cfg(test)]
mod values;
