//! How the words of the members of a scope are combined: sums, and the words of greatest or least absolute value.
#![tactic(auto)]

mod abs_max;
mod abs_min;
mod combine;
mod held;
mod meanings;
mod sum_mod;
mod ties;

pub use abs_max::AbsMax;
pub use abs_min::AbsMin;
pub use combine::Combine;
pub use held::Held;
pub use meanings::{fold_rows, greatest_is_fold, least_is_fold, sum_is_fold, told_apart};
pub use sum_mod::SumMod;
