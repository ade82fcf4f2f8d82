//! How much a plan can hold.

/// The most operations of a plan: 2^20.
pub const MOST_OPS: u32 = 1_048_576;

/// The most ranks.
pub const MOST_RANKS: usize = 64;

/// The ordered pairs of so many ranks. The pair (from, to) has the place from * 64 + to in tables of all.
pub const PAIRS: usize = 4096;
