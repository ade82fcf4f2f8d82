//! What broadcasts and combines along any route give: only laws.
//!
//! The functions of this crate do nothing: each `ensures` is a law.
#![tactic(auto)]

mod broadcasts;
mod combines;
mod doing;
mod elements;
mod folds;

pub use broadcasts::{broadcast_gives, delivered_gives, written_once};
pub use combines::{
    children_later, combined_gives, combined_in_order, ends_differ, joined_one_way, joins_below,
    last_is_joined, root_joins_all, root_over_words, sends_last, sends_once,
};
pub use doing::{
    barrier_count, broadcast_count, combine_count, combine_for_all_count, does_along, does_turned,
    message_count,
};
pub use elements::passed_each;
pub use folds::{for_all_gives, greatest_combined, least_combined, sum_combined};
