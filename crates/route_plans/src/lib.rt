//! Plans that pass messages along the edges of a route: what doing their steps in order does to the memories of the ranks.
//!
//! The functions of this crate do nothing: each `ensures` is a law.
#![tactic(auto)]

mod calls;
mod gathering;

pub use calls::{
    barrier_done, broadcast_done, combine_done, combine_for_all_done, leaves_lens, quiet_by_lens,
};
pub use gathering::{
    gathers_greatest, gathers_least, gathers_rest, gathers_sum, spreads_pairs, spreads_values,
};
