//! The mail between ranks that run on threads: a ruled bounded queue for each ordered pair, and for each rank a desk with its ends of them.
#![tactic(auto)]

mod desk;
mod ends;
mod room;
mod rule;
mod seen;

pub use desk::Desk;
pub use room::Room;
pub use rule::Letters;
