//! Tests of the commands: joins, moves, and devices that fail.
#![tactic(auto)]

#[cfg(test)]
mod devices;
#[cfg(test)]
mod joins;
#[cfg(test)]
mod moves;
