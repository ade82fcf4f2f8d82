//! Laws of folds.
ghost use Rattle.std.specs.Prelude.{◌≡◌, ◌<◌, ◌↔◌, ℕ, ℤ, pos, negsuc, List, [], ◌∷◌, length};
ghost use Rattle.fold_ops.specs.declared.held.Held.{Held};
ghost use Rattle.fold_ops.specs.Tree.{AllFit, word_at};
ghost use Rattle.fold_ops.specs.Fold.{IsSumFold, IsMaxFold, IsMinFold};
ghost use Rattle.route_tree.specs.Routes.{IsRoute};
ghost use Rattle.route_laws.specs.Passing.{combined, combined_for_all};
ghost use Rattle.fold_ops.specs.FoldOf.{sum_of, added, word_with_place, greatest_of, least_of};

use fold_ops::{AbsMax, AbsMin, Combine, SumMod};

/// Where each member holds its word with its place, the root holds in the end the word of greatest absolute value, with
/// the least place of such a word; and every member, where all are destinations.
pub fn greatest_combined()
    ensures root { (words : List ℤ) (source : ℕ) (edges : List (ℕ × ℕ)) → AllFit words → source < length words →
        IsRoute (length words) source edges →
        combined ⟦<AbsMax as Combine>⟧.joined edges (word_with_place words) source ≡ greatest_of words }
    ensures all { (words : List ℤ) (source : ℕ) (edges : List (ℕ × ℕ)) → AllFit words → source < length words →
        IsRoute (length words) source edges → (p : ℕ) → p < length words →
        combined_for_all ⟦<AbsMax as Combine>⟧.joined edges (word_with_place words) p ≡ greatest_of words }
{}

/// The same for the least absolute value.
pub fn least_combined()
    ensures root { (words : List ℤ) (source : ℕ) (edges : List (ℕ × ℕ)) → AllFit words → source < length words →
        IsRoute (length words) source edges →
        combined ⟦<AbsMin as Combine>⟧.joined edges (word_with_place words) source ≡ least_of words }
    ensures all { (words : List ℤ) (source : ℕ) (edges : List (ℕ × ℕ)) → AllFit words → source < length words →
        IsRoute (length words) source edges → (p : ℕ) → p < length words →
        combined_for_all ⟦<AbsMin as Combine>⟧.joined edges (word_with_place words) p ≡ least_of words }
{}

/// Where the members' values are the words, and joining adds values modulo 2^32, the root's value is in the end the sum
/// of all words, whatever else the members hold.
pub fn sum_combined<A>()
    ensures root { (value : A → ℤ) (join : A → A → A) → ((a b : A) → value (join a b) ≡ added (value a) (value b)) →
        (words : List ℤ) (source : ℕ) (edges : List (ℕ × ℕ)) → AllFit words → source < length words →
        IsRoute (length words) source edges →
        (have : ℕ → A) → ((p : ℕ) → p < length words → value (have p) ≡ word_at words p) →
        value (combined join edges have source) ≡ sum_of words }
    ensures all { (value : A → ℤ) (join : A → A → A) → ((a b : A) → value (join a b) ≡ added (value a) (value b)) →
        (words : List ℤ) (source : ℕ) (edges : List (ℕ × ℕ)) → AllFit words → source < length words →
        IsRoute (length words) source edges →
        (have : ℕ → A) → ((p : ℕ) → p < length words → value (have p) ≡ word_at words p) →
        (p : ℕ) → p < length words → value (combined_for_all join edges have p) ≡ sum_of words }
{}

/// Where all members are destinations, each holds in the end what the root holds after the combine.
pub fn for_all_gives<X>()
    ensures { (n source : ℕ) (edges : List (ℕ × ℕ)) → IsRoute n source edges → (join : X → X → X) (have : ℕ → X) (p : ℕ) → p < n →
        combined_for_all join edges have p ≡ combined join edges have source }
{}
