//! Why reading stops.

/// Why reading a file stopped before its end.
#[derive(Clone, Copy, Debug, PartialEq, Eq)]
pub enum Halt<E> {
    /// The file was refused.
    Bad(E),
    /// The store failed.
    Failed,
    /// Memory was wanted.
    Memory,
}
