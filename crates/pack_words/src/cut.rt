//! Which elements of a matrix a move takes.

ghost use Rattle.std.specs.Prelude.{◌≡◌, ◌<◌};
ghost use Rattle.pack_words.specs.Selected.{is_selected};

use crate::diag::Diag;
use crate::shape::Shape;
use crate::uplo::Uplo;

/// A shape in a matrix of `m` rows and `n` columns.
#[derive(Clone, Copy, Debug, PartialEq, Eq)]
pub struct Cut {
    pub shape: Shape,
    pub m: u32,
    pub n: u32,
}

/// Whether the cut has the element of row `i` and column `j`, both counted from 0. A User's Guide to the BLACS, "Matrix
/// shapes".
pub fn selected(cut: &Cut, i: u32, j: u32) -> bool
    requires row { i < cut.now.m }
    requires column { j < cut.now.n }
    ensures { result ≡ is_selected cut.now i j }
{
    let tall = cut.m.saturating_sub(cut.n);
    let wide = cut.n.saturating_sub(cut.m);
    match cut.shape {
        Shape::Ge => true,
        Shape::Tr(Uplo::Upper, Diag::N) => i <= j + tall,
        Shape::Tr(Uplo::Upper, Diag::U) => i < j + tall,
        Shape::Tr(Uplo::Lower, Diag::N) => j <= i + wide,
        Shape::Tr(Uplo::Lower, Diag::U) => j < i + wide,
    }
}
