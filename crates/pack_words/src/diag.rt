//! With or without the diagonal.

/// Whether a trapezoid has its diagonal. A User's Guide to the BLACS, "Matrix shapes", argument DIAG.
#[derive(Clone, Copy, Debug, PartialEq, Eq)]
pub enum Diag {
    /// With its diagonal.
    N,
    /// Without: the diagonal of a unit trapezoid is known to be of ones and isn't moved.
    U,
}
