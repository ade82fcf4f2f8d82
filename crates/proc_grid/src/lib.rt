//! Process grids, as in the BLACS: worlds of ranks, grids over them, their scopes, and contexts by number.
#![tactic(auto)]

mod context;
mod contexts;
mod grid_err;
mod making;
mod scope;
mod world;

pub use context::{Context, GridInfo};
pub use contexts::Contexts;
pub use grid_err::GridErr;
pub use making::{gridinit, gridmap};
pub use scope::{Scope, scope_members, scope_position};
pub use world::{Order, World};
