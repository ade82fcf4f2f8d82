//! What is declared after a line.

use crate::declared::Declared;

/// What is declared after a line, and the sizes of its array by rank, where it declares one.
#[derive(Debug, Drop)]
pub struct Grown {
    pub declared: Declared,
    pub sizes: Option<Vec<(u32, u32)>>,
}
