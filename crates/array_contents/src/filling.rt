//! The numbers of a FILL line.

/// What FILL sets, each word modulo 2^32. The element of row i and column j of an ARRAY, counted from 0, is a + b i + c j,
/// and its padding is d; the word of row i and column j of a MATRIX on rank r is a + b i + c j + d r.
#[derive(Clone, Copy, Debug, PartialEq, Eq)]
pub struct Filling {
    pub a: i32,
    pub b: i32,
    pub c: i32,
    pub d: i32,
}
