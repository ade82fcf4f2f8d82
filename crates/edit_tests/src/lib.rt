//! Drawn edits of good files and words: the tool answers as a second reading of docs/FORMATS.md does.
#![tactic(auto)]

#[cfg(test)]
mod answers;
#[cfg(test)]
mod asked;
#[cfg(test)]
mod edited;
#[cfg(test)]
mod edits;
#[cfg(test)]
mod lines;
#[cfg(test)]
mod matrices;
#[cfg(test)]
mod pieces;
#[cfg(test)]
mod setting;
