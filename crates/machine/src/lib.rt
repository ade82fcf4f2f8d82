//! The machine of kinds and lengths: who can step, where every run ends, and what a common order needs.
#![tactic(auto)]

mod kind;
mod laws;

pub use kind::Kind;
pub use laws::{
    lengths_fit, one_verdict_holds, orders_end, orders_never_stick, rounds_are_few,
    runs_are_orders, runs_end_alike, steps_stay,
};
