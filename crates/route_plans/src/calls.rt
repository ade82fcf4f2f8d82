//! Laws of whole calls: a broadcast, a combine to one or to all, a barrier.
ghost use Rattle.std.specs.Prelude.{◌≡◌, ◌≢◌, ◌<◌, ℕ, ℤ, List, [], length, nat_eq, if◌then◌else◌};
ghost use Rattle.msg_core.specs.Kinds.{Local};
ghost use Rattle.msg_core.specs.InOrder.{World, in_order};
ghost use Rattle.msg_core.specs.Plans.{Lens};
ghost use Rattle.msg_core.specs.Able.{Matches};
ghost use Rattle.route_tree.specs.Routes.{IsRoute};
ghost use Rattle.route_laws.specs.Passing.{along, turned};
ghost use Rattle.route_plans.specs.PlanSteps.{plan_passing, plan_combine, plan_combine_for_all, plan_barrier};
ghost use Rattle.route_plans.specs.PlanPassing.{memory_of, AreQuiet, HaveMemories, SendAlong, SameLengths, LeavesLens, Delivers, taken_in, stored_at, stored_by_all};

use msg_core::{Node, Step};

/// A broadcast: every member but the source has taken in the source's message, and all else is as before.
pub fn broadcast_done<N: Node>()
    ensures { (none : N) (n source : ℕ) (edges : List (ℕ × ℕ)) → IsRoute n source edges →
        (rank : ℕ → ℕ) (send receive : ℕ × ℕ → N.Op) → SendAlong N.Op.Step rank send receive →
        (message : ℕ → N → List ℤ) (takes : ℕ → List ℤ → N → N) → Delivers N.Node send receive message takes →
        (w : World N) → AreQuiet n rank w →
        ((p : ℕ) → p < n → p ≢ source → message p (takes p (message source (memory_of none rank w source)) (memory_of none rank w p)) ≡ message source (memory_of none rank w source)) →
        HaveMemories none n rank (λ p. if nat_eq p source then memory_of none rank w source else takes p (message source (memory_of none rank w source)) (memory_of none rank w p)) w
        (in_order N.Op.Step N.Node (plan_passing rank send receive edges) w) }
{}

/// A combine to one destination.
pub fn combine_done<N: Node>()
    ensures { (none : N) (n source : ℕ) (edges : List (ℕ × ℕ)) → source < n → IsRoute n source edges →
        (rank : ℕ → ℕ) (load : ℕ → N.Op) (send receive : ℕ × ℕ → N.Op) (store : ℕ → N.Op) →
        ((p : ℕ) → N.Op.kind_of (load p) ≡ Local) → SendAlong N.Op.Step rank send receive → ((p : ℕ) → N.Op.kind_of (store p) ≡ Local) →
        (w : World N) → AreQuiet n rank w →
        HaveMemories none n rank (stored_at N.Node load send receive store source edges (memory_of none rank w)) w
        (in_order N.Op.Step N.Node (plan_combine rank load send receive store n source edges) w) }
{}

/// A combine to all.
pub fn combine_for_all_done<N: Node>()
    ensures { (none : N) (n source : ℕ) (edges : List (ℕ × ℕ)) → IsRoute n source edges →
        (rank : ℕ → ℕ) (load : ℕ → N.Op) (send receive send' receive' : ℕ × ℕ → N.Op) (store : ℕ → N.Op) →
        ((p : ℕ) → N.Op.kind_of (load p) ≡ Local) → SendAlong N.Op.Step rank send receive → SendAlong N.Op.Step rank send' receive' →
        ((p : ℕ) → N.Op.kind_of (store p) ≡ Local) → (w : World N) → AreQuiet n rank w →
        HaveMemories none n rank (stored_by_all N.Node load send receive send' receive' store edges (memory_of none rank w)) w
        (in_order N.Op.Step N.Node (plan_combine_for_all rank load send receive send' receive' store n edges) w) }
{}

/// A barrier.
pub fn barrier_done<N: Node>()
    ensures { (none : N) (n source : ℕ) (edges : List (ℕ × ℕ)) → IsRoute n source edges →
        (rank : ℕ → ℕ) (send receive : ℕ × ℕ → N.Op) → SendAlong N.Op.Step rank send receive → (w : World N) → AreQuiet n rank w →
        HaveMemories none n rank (along (taken_in N.Node send receive) edges (along (taken_in N.Node send receive) (turned edges) (memory_of none rank w))) w
        (in_order N.Op.Step N.Node (plan_barrier rank send receive edges) w) }
{}

/// Different ranks between which no message waits, by the lengths of the messages that wait in a world, are quiet.
pub fn quiet_by_lens<N: Node>()
    ensures { (w : World N) (q : Lens) → Matches q w → (n : ℕ) (rank : ℕ → ℕ) →
        ((p : ℕ) → p < n → rank p < length w.nodes) →
        ((p r : ℕ) → p < n → r < n → p ≢ r → rank p ≢ rank r) →
        ((p r : ℕ) → p < n → r < n → p ≢ r → q (rank p) (rank r) ≡ []) → AreQuiet n rank w }
{}

/// The messages of a route find their lengths, and leave the lengths of waiting messages as they were: along the edges,
/// and along the turned edges.
pub fn leaves_lens<Op: Step>()
    ensures { (n source : ℕ) (edges : List (ℕ × ℕ)) → IsRoute n source edges → (rank : ℕ → ℕ) (send receive : ℕ × ℕ → Op) →
        SameLengths Op.Step rank send receive → (q : Lens) → ((p r : ℕ) → p < n → r < n → p ≢ r → q (rank p) (rank r) ≡ []) →
        LeavesLens Op.Step (plan_passing rank send receive edges) q × LeavesLens Op.Step (plan_passing rank send receive (turned edges)) q }
{}
