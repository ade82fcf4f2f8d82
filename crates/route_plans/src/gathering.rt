//! Laws of the accumulators in a combine.
ghost use Rattle.std.specs.Prelude.{◌≡◌, ◌<◌, ℕ, ℤ, List};
ghost use Rattle.fold_ops.specs.declared.held.Held.{Held};
ghost use Rattle.fold_ops.specs.Join.{max_joined, min_joined};
ghost use Rattle.route_tree.specs.Routes.{IsRoute};
ghost use Rattle.route_laws.specs.Passing.{along};
ghost use Rattle.fold_ops.specs.FoldOf.{sum_of, greatest_of, least_of};
ghost use Rattle.pack_words.specs.Accumulators.{element_of, value_of, pairs_message, values_message, joined_with, added_with, replaced_by_pairs, replaced_by_values};
ghost use Rattle.route_plans.specs.PlanPassing.{taken_in, gathered_up};
ghost use Rattle.route_plans.specs.Gathering.{IsAccumulator, Loads, Moves, words_of_scope, AreReady};

use msg_core::Node;

/// The root's elements are the words of greatest absolute value of the scope, with their places.
pub fn gathers_greatest<N: Node, Y>()
    ensures { (n len source : ℕ) (edges : List (ℕ × ℕ)) (acc : N → List Held) (rest : N → Y) (word : ℕ → N → ℕ → ℤ)
        (load : ℕ → N.Op) (send receive : ℕ × ℕ → N.Op) (memory : ℕ → N) → source < n → IsRoute n source edges →
        Loads N.Node len acc rest word load → AreReady n len acc word memory →
        Moves N.Node acc rest send receive (λ e child parent. joined_with max_joined len parent (pairs_message len child)) →
        (k : ℕ) → k < len → element_of (acc (gathered_up N.Node load send receive edges memory source)) k ≡ greatest_of (words_of_scope n word memory k) }
{}

/// The root's elements are the words of least absolute value of the scope, with their places.
pub fn gathers_least<N: Node, Y>()
    ensures { (n len source : ℕ) (edges : List (ℕ × ℕ)) (acc : N → List Held) (rest : N → Y) (word : ℕ → N → ℕ → ℤ)
        (load : ℕ → N.Op) (send receive : ℕ × ℕ → N.Op) (memory : ℕ → N) → source < n → IsRoute n source edges →
        Loads N.Node len acc rest word load → AreReady n len acc word memory →
        Moves N.Node acc rest send receive (λ e child parent. joined_with min_joined len parent (pairs_message len child)) →
        (k : ℕ) → k < len → element_of (acc (gathered_up N.Node load send receive edges memory source)) k ≡ least_of (words_of_scope n word memory k) }
{}

/// The root's values are the sums of the scope's words.
pub fn gathers_sum<N: Node, Y>()
    ensures { (n len source : ℕ) (edges : List (ℕ × ℕ)) (acc : N → List Held) (rest : N → Y) (word : ℕ → N → ℕ → ℤ)
        (load : ℕ → N.Op) (send receive : ℕ × ℕ → N.Op) (memory : ℕ → N) → source < n → IsRoute n source edges →
        Loads N.Node len acc rest word load → AreReady n len acc word memory →
        Moves N.Node acc rest send receive (λ e child parent. added_with len parent (values_message len child)) →
        (k : ℕ) → k < len → value_of (acc (gathered_up N.Node load send receive edges memory source)) k ≡ sum_of (words_of_scope n word memory k) }
{}

/// The rest of every memory stays as it was.
pub fn gathers_rest<N: Node, Y>()
    ensures { (n len source : ℕ) (edges : List (ℕ × ℕ)) (acc : N → List Held) (rest : N → Y) (word : ℕ → N → ℕ → ℤ)
        (load : ℕ → N.Op) (send receive : ℕ × ℕ → N.Op) (memory : ℕ → N) (step : ℕ × ℕ → List Held → List Held → List Held) →
        Loads N.Node len acc rest word load → Moves N.Node acc rest send receive step →
        (p : ℕ) → rest (gathered_up N.Node load send receive edges memory p) ≡ rest (memory p) }
{}

/// By messages with places every member gets the source's elements.
pub fn spreads_pairs<N: Node, Y>()
    ensures { (n len source : ℕ) (edges : List (ℕ × ℕ)) (acc : N → List Held) (rest : N → Y)
        (send receive : ℕ × ℕ → N.Op) (memory : ℕ → N) → IsRoute n source edges → ((p : ℕ) → p < n → IsAccumulator len (acc (memory p))) →
        Moves N.Node acc rest send receive (λ e start end. replaced_by_pairs len end (pairs_message len start)) →
        (p : ℕ) → p < n → (k : ℕ) → k < len → element_of (acc (along (taken_in N.Node send receive) edges memory p)) k ≡ element_of (acc (memory source)) k }
{}

/// By messages of values only, every member gets the source's values.
pub fn spreads_values<N: Node, Y>()
    ensures { (n len source : ℕ) (edges : List (ℕ × ℕ)) (acc : N → List Held) (rest : N → Y)
        (send receive : ℕ × ℕ → N.Op) (memory : ℕ → N) → IsRoute n source edges → ((p : ℕ) → p < n → IsAccumulator len (acc (memory p))) →
        Moves N.Node acc rest send receive (λ e start end. replaced_by_values len end (values_message len start)) →
        (p : ℕ) → p < n → (k : ℕ) → k < len → value_of (acc (along (taken_in N.Node send receive) edges memory p)) k ≡ value_of (acc (memory source)) k }
{}
