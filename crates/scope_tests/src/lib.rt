//! Tests of messages, broadcasts, combines and barriers: calls that make plans, and the arrays after the plans are run.
#![tactic(auto)]

pub mod joint;
pub mod memories;
pub mod messages;
#[cfg(test)]
mod tests;
pub mod trial;
pub mod trouble;
