//! What the ways to combine mean: each is the one of its name, and its fold is a function of the list of words.
//!
//! The functions do nothing: each `ensures` is a law.
ghost use Rattle.std.specs.Prelude.{◌≡◌, ◌↔◌, ◌<◌, ℤ, pos, negsuc, List, [], ◌∷◌, length};
ghost use Rattle.fold_ops.specs.declared.held.Held.{Held};
ghost use Rattle.fold_ops.specs.Join.{sum_joined, max_joined, min_joined};
ghost use Rattle.fold_ops.specs.Fold.{IsSumFold, IsMaxFold, IsMinFold};
ghost use Rattle.fold_ops.specs.FoldOf.{sum_of, greatest_of, least_of};

use crate::{AbsMax, AbsMin, Combine, SumMod};

/// SumMod adds, AbsMax gives the greatest and AbsMin the least absolute value.
pub fn told_apart()
    ensures sum { (a b : Held) → ⟦<SumMod as Combine>⟧.joined a b ≡ sum_joined a b }
    ensures sum_fold { (words : List ℤ) (fold : Held) →
        ⟦<SumMod as Combine>⟧.is_fold words fold ↔ IsSumFold words fold }
    ensures greatest { (a b : Held) → ⟦<AbsMax as Combine>⟧.joined a b ≡ max_joined a b }
    ensures greatest_fold { (words : List ℤ) (fold : Held) →
        ⟦<AbsMax as Combine>⟧.is_fold words fold ↔ IsMaxFold words fold }
    ensures least { (a b : Held) → ⟦<AbsMin as Combine>⟧.joined a b ≡ min_joined a b }
    ensures least_fold { (words : List ℤ) (fold : Held) →
        ⟦<AbsMin as Combine>⟧.is_fold words fold ↔ IsMinFold words fold }
{}

/// A fold by sums is one whose value is the sum modulo 2^32.
pub fn sum_is_fold()
    ensures { (words : List ℤ) (fold : Held) →
        ⟦<SumMod as Combine>⟧.is_fold words fold ↔ (fold.value ≡ sum_of words) }
{}

/// A list with a word has exactly one fold by greatest absolute values.
pub fn greatest_is_fold()
    ensures { (words : List ℤ) (fold : Held) → 0 < length words →
        ⟦<AbsMax as Combine>⟧.is_fold words fold ↔ (fold ≡ greatest_of words) }
{}

/// A list with a word has exactly one fold by least absolute values.
pub fn least_is_fold()
    ensures { (words : List ℤ) (fold : Held) → 0 < length words →
        ⟦<AbsMin as Combine>⟧.is_fold words fold ↔ (fold ≡ least_of words) }
{}

/// Folds of some lists: signs are kept, a tie goes to the first, the absolute value of -2147483648 is 2147483648, and
/// sums wrap.
pub fn fold_rows()
    ensures greatest { greatest_of (pos 4 ∷ negsuc 8 ∷ pos 9 ∷ []) ≡ record { value = negsuc 8; place = 1 } }
    ensures greatest_tie { greatest_of (negsuc 4 ∷ pos 5 ∷ []) ≡ record { value = negsuc 4; place = 0 } }
    ensures least_tie { least_of (negsuc 4 ∷ pos 5 ∷ []) ≡ record { value = negsuc 4; place = 0 } }
    ensures far { let words = negsuc 2147483647 ∷ pos 2147483647 ∷ [] in
        greatest_of words ≡ record { value = negsuc 2147483647; place = 0 } }
    ensures near { let words = negsuc 2147483647 ∷ pos 2147483647 ∷ [] in
        least_of words ≡ record { value = pos 2147483647; place = 1 } }
    ensures wraps { sum_of (pos 2147483647 ∷ pos 1 ∷ []) ≡ negsuc 2147483647 }
{}
