//! Tests of files at the most bytes that a file may have, and of faults at the edge of the reader's window.
#![tactic(auto)]

#[cfg(test)]
mod cases;
#[cfg(test)]
mod limits;
#[cfg(test)]
mod long_store;
#[cfg(test)]
mod long_text;
#[cfg(test)]
mod windows;
