//! Above or below the diagonal.

/// Whether a trapezoid lies above or below its diagonal. A User's Guide to the BLACS, "Matrix shapes", argument UPLO.
#[derive(Clone, Copy, Debug, PartialEq, Eq)]
pub enum Uplo {
    /// The diagonal and the elements above it.
    Upper,
    /// The diagonal and the elements below it.
    Lower,
}
