//! A way to combine two held words into one.
ghost use Rattle.std.specs.Prelude.{◌≡◌, ℤ, List, length};
ghost use Rattle.fold_ops.specs.declared.held.Held.{Held};
ghost use Rattle.fold_ops.specs.Tree.{Tree, JoinsAll, AllFit, joined_over};

use crate::Held;

/// Combines held words two at a time. The order and the grouping make no difference, and joining what all members
/// hold, each exactly once, gives the fold of the whole list of their words.
pub trait Combine {
    ghost joined: { Held → Held → Held };

    /// What the fold of a whole list of words is.
    ghost is_fold: { List ℤ → Held → Type 0 };

    /// Joins two held words. It takes no memory and refuses nothing.
    fn join(a: Held, b: Held) -> Held
        ensures { result ≡ joined a b };

    ghost commutative: { (a b : Held) → joined a b ≡ joined b a };

    ghost associative: { (a b c : Held) → joined (joined a b) c ≡ joined a (joined b c) };

    ghost gives_fold: { (words : List ℤ) (tree : Tree) → AllFit words → JoinsAll (length words) tree → is_fold words (joined_over joined words tree) };
}
