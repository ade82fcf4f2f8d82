//! Tests of the commands on what the world can do to them: malformed files and words, sizes at the limits, devices that fail.
#![tactic(auto)]

#[cfg(test)]
mod devices;
#[cfg(test)]
mod large;
#[cfg(test)]
mod limits;
#[cfg(test)]
mod malformed;
#[cfg(test)]
mod malformed_pieces;
#[cfg(test)]
mod rows;
#[cfg(test)]
mod running;
#[cfg(test)]
mod setting;
#[cfg(test)]
mod texts;
