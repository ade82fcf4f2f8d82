//! Laws of combines.
ghost use Rattle.std.specs.Prelude.{◌≡◌, ◌≢◌, ◌<◌, ◌+◌, ◌-◌, ℕ, ℤ, List, length, drop, nat_eq, if◌then◌else◌};
ghost use Rattle.fold_ops.specs.declared.held.Held.{Held};
ghost use Rattle.fold_ops.specs.Tree.{Tree, JoinsAll, AllFit, joined_over};
ghost use Rattle.route_tree.specs.Routes.{IsEdge, IsRoute};
ghost use Rattle.route_laws.specs.Passing.{turned, combined, times_sent};
ghost use Rattle.route_laws.specs.Joining.{children, joined_up, joined_by, tree_of, JoinsBelow, IsOrderFree, joined_to};
ghost use Rattle.fold_ops.specs.FoldOf.{word_with_place};

use fold_ops::Combine;

/// An edge goes between two different members.
pub fn ends_differ()
    ensures { (n source : ℕ) (edges : List (ℕ × ℕ)) → IsRoute n source edges →
        (i from to : ℕ) → IsEdge edges i from to → from ≢ to }
{}

/// The edges to a member's children stand after the edge to the member, so in a combine the children send first.
pub fn children_later()
    ensures { (n source : ℕ) (edges : List (ℕ × ℕ)) → IsRoute n source edges →
        (i j from to child : ℕ) → IsEdge edges i from to → IsEdge edges j to child → i < j }
{}

/// In a combine each member but the root sends exactly once, and the root never.
pub fn sends_once()
    ensures { (n source : ℕ) (edges : List (ℕ × ℕ)) → IsRoute n source edges → (m : ℕ) → m < n →
        times_sent (turned edges) m ≡ (if nat_eq m source then 0 else 1) }
{}

/// What a member holds when its turn to send comes, once all edges after its own are passed, is its last value.
pub fn sends_last<X>()
    ensures { (n source : ℕ) (edges : List (ℕ × ℕ)) → IsRoute n source edges → (join : X → X → X) (have : ℕ → X) →
        (i from to : ℕ) → IsEdge edges i from to → combined join (drop (i + 1) edges) have to ≡ combined join edges have to }
{}

/// A member's last value is its own, to which the last values of its children are joined.
pub fn last_is_joined<X>()
    ensures { (n source : ℕ) (edges : List (ℕ × ℕ)) → IsRoute n source edges → (join : X → X → X) (have : ℕ → X) (m : ℕ) →
        combined join edges have m ≡ joined_up join (have m) (combined join edges have) (children edges m) }
{}

/// A member's last value is what the member's tree joins, whatever is joined and however.
pub fn joined_one_way<X>()
    ensures { (n source : ℕ) (edges : List (ℕ × ℕ)) → IsRoute n source edges → (join : X → X → X) (have : ℕ → X) (p : ℕ) → p < n →
        combined join edges have p ≡ joined_by join have (tree_of edges p) }
{}

/// The root's tree joins every member exactly once.
pub fn root_joins_all()
    ensures { (n source : ℕ) (edges : List (ℕ × ℕ)) → source < n → IsRoute n source edges → JoinsAll n (tree_of edges source) }
{}

/// A member's tree joins the member and every member below it exactly once, and no other.
pub fn joins_below()
    ensures { (n source : ℕ) (edges : List (ℕ × ℕ)) → source < n → IsRoute n source edges → (m : ℕ) → m < n → JoinsBelow edges m (tree_of edges m) }
{}

/// Where the order and the grouping make no difference, the root holds in the end what joining in scope order gives.
pub fn combined_in_order<X>()
    ensures { (n source : ℕ) (edges : List (ℕ × ℕ)) → source < n → IsRoute n source edges → (join : X → X → X) → IsOrderFree join → (have : ℕ → X) →
        combined join edges have source ≡ joined_to join have (n - 1) }
{}

/// Where each member holds its word with its place, the root holds in the end what some way that joins each of them
/// once gives.
pub fn root_over_words()
    ensures { (join : Held → Held → Held) (words : List ℤ) (source : ℕ) (edges : List (ℕ × ℕ)) → source < length words →
        IsRoute (length words) source edges →
        (tree : Tree) × JoinsAll (length words) tree × (combined join edges (word_with_place words) source ≡ joined_over join words tree) }
{}

/// For each way to combine, the root holds in the end the fold of all words, in scope order.
pub fn combined_gives<C: Combine>()
    ensures { (words : List ℤ) (source : ℕ) (edges : List (ℕ × ℕ)) → AllFit words → source < length words →
        IsRoute (length words) source edges → C.is_fold words (combined C.joined edges (word_with_place words) source) }
{}
