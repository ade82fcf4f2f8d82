//! Tests of jobs that are made from a number.
#![tactic(auto)]

#[cfg(test)]
mod jobs;
