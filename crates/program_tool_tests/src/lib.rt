//! Tests of the commands that check and run grid programs, through the whole tool.
#![tactic(auto)]

#[cfg(test)]
mod checks;
#[cfg(test)]
mod devices;
#[cfg(test)]
mod files;
#[cfg(test)]
mod limits;
#[cfg(test)]
mod prints;
#[cfg(test)]
mod refusals;
#[cfg(test)]
mod running;
