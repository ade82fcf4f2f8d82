//! Counts that are kept.

use crate::cut::Cut;

/// How many elements a list of regions selects of a cut.
#[derive(Clone, Copy, Debug)]
pub struct Counted {
    pub cut: Cut,
    pub count: u32,
}
