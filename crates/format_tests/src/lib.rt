//! Tests of matrix files and of piece files.
#![tactic(auto)]

#[cfg(test)]
mod drops;
#[cfg(test)]
mod edges;
#[cfg(test)]
mod matrices;
#[cfg(test)]
mod pieces;
#[cfg(test)]
mod texts;
