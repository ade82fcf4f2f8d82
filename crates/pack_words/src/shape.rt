//! Whole matrices and trapezoids.

use crate::diag::Diag;
use crate::uplo::Uplo;

/// A whole matrix or a trapezoid of it. A User's Guide to the BLACS, "Matrix shapes".
#[derive(Clone, Copy, Debug, PartialEq, Eq)]
pub enum Shape {
    /// All elements.
    Ge,
    /// The elements on one side of the diagonal. That of an upper trapezoid of m rows and n columns begins in the first
    /// column at row max(m - n, 0), that of a lower one in the first row at column max(n - m, 0), both counted from 0.
    Tr(Uplo, Diag),
}
