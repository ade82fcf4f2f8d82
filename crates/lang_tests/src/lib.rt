//! Tests of the grid language.
#![tactic(auto)]

#[cfg(test)]
mod examples;
#[cfg(test)]
mod faults;
#[cfg(test)]
mod forms;
#[cfg(test)]
mod limits;
#[cfg(test)]
mod reading;
#[cfg(test)]
mod words;
#[cfg(test)]
mod worked;
