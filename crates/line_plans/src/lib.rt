//! The lines of a grid program, one by one: what a declaration declares, and which operations an exchange appends to a plan.
#![tactic(auto)]

mod array_line;
mod arrays;
mod begun;
mod declarations;
mod declared;
mod exchanges;
mod grids;
mod grown;
mod halt;
mod kind;
mod maps;
mod matrices;
mod moves;
mod points;
mod quiet;
mod scopes;
mod settled;

pub use declarations::declare;
pub use declared::Declared;
pub use exchanges::plan_exchange;
pub use grown::Grown;
pub use halt::Halt;
pub use kind::{Kind, kind_of};
pub use settled::words_with;
