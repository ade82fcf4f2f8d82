//! Laws of the lines.

ghost use Rattle.std.specs.Prelude.{ℕ, ◌<◌, List, length, slice_index};
ghost use Rattle.msg_core.specs.Plans.{PlanView};
ghost use Rattle.route_tree.specs.Routes.{IsRoute};
ghost use Rattle.pack_words.specs.declared.shape.Shape.{Shape};
ghost use Rattle.pack_words.specs.declared.rank_op.RankOp.{RankOp};
ghost use Rattle.pack_words.specs.GridState.{GridState, Means};
ghost use Rattle.pack_words.specs.GridShapes.{ShapesView, HasShapes};
ghost use Rattle.pack_words.specs.GridPlans.{IsOf};
ghost use Rattle.scope_ops.specs.declared.part.Part.{Part};
ghost use Rattle.scope_ops.specs.declared.part.Spot.{Spot};
ghost use Rattle.scope_ops.specs.Parts.{part_from};
ghost use Rattle.scope_ops.specs.Lines.{broadcast_line};
ghost use Rattle.scope_ops.specs.Broadcasts.{edge_ops, AreMembers, AllFit, IsQuiet};
ghost use Rattle.scope_ops.specs.ByPlace.{IsBroadcast};

/// A broadcast along any route, whatever tree it is of.
pub fn broadcast_along_any_route()
    ensures means { (v : ShapesView) (p : PlanView RankOp) (members : List ℕ) (edges : List (ℕ × ℕ)) (source : ℕ)
        (shape : Shape) (part : Part) (rcv : Spot) → AreMembers v.ranks members →
        AllFit v members source part rcv → IsRoute (length members) source edges → source < length members →
        IsQuiet p members → Means (edge_ops members source shape part rcv edges) (IsOf v p)
        (broadcast_line members (slice_index members source) shape part (part_from rcv part)) }
    ensures by_place { (v : ShapesView) (members : List ℕ) (source : ℕ) (shape : Shape) (part : Part) (rcv : Spot)
        (s : GridState) → AreMembers v.ranks members → AllFit v members source part rcv → HasShapes v s →
        IsBroadcast members (slice_index members source) shape part (part_from rcv part) s
        (broadcast_line members (slice_index members source) shape part (part_from rcv part) s) }
{}
