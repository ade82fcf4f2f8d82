//! Tests of the mail between ranks and of runs on threads, with a small node and with moves in memory.
#![tactic(auto)]

pub mod gates;
#[cfg(test)]
mod move_cases;
pub mod pair;
pub mod ready_moves;
pub mod runs;
pub mod setting;
#[cfg(test)]
mod tests;
