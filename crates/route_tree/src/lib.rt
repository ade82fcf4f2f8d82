//! The trees along which broadcasts and combines of a scope go.
#![tactic(auto)]

mod edges;
mod top;

pub use edges::route;
pub use top::Top;
