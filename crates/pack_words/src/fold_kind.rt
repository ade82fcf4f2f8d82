//! Which combine is done.

ghost use Rattle.std.specs.Prelude.{◌≡◌};
ghost use Rattle.pack_words.specs.Accumulators.{has_places};

/// How the elements of a message are joined with those of the accumulator: IGSUM2D, IGAMX2D or IGAMN2D of A User's Guide
/// to the BLACS.
#[derive(Clone, Copy, Debug, PartialEq, Eq)]
pub enum FoldKind {
    Sum,
    AbsMax,
    AbsMin,
}

impl FoldKind {
    /// Whether its messages have places beside the values.
    #[inline]
    pub fn has_places(self) -> bool
        ensures { result ≡ has_places self }
    {
        match self {
            FoldKind::Sum => false,
            FoldKind::AbsMax => true,
            FoldKind::AbsMin => true,
        }
    }
}
