//! The room that a plan needs in the accumulators.

ghost use Rattle.std.specs.Prelude.{◌≡◌, ◌<◌, ◌≤◌, length, slice_get};
ghost use Rattle.pack_words.specs.GridState.{scratch_needed};
ghost use Rattle.pack_words.specs.GridShapes.{ShapesView};
ghost use Rattle.scope_ops.specs.Scratch.{used_by, AreWithinArrays, all_scratch, all_array_words};

use msg_core::Plan;
use pack_words::RankOp;

// The elements that the operation at place `k` uses of this rank's accumulator, or 0.
fn used_at(plan: &Plan<RankOp>, rank: u32, k: u32) -> u32
    requires { k < length plan.now.steps }
    ensures { result ≡ used_by rank (slice_get plan.now.steps k) }
{
    plan.facts();
    match plan.op(k) {
        Some((r, op)) => if r == rank { op.elements() } else { 0 },
        None => 0,
    }
}

/// The most elements that one operation of this rank uses of its accumulator: 0 where it takes part in no combine. One
/// pass over the plan. Where each rank needs at most as many as its arrays have words, as in a plan of the calls here, all
/// ranks together need at most as many as all arrays have words.
#[tactic(auto, using(crate::proofs::Needed::needed_more, crate::proofs::Needed::needed_all, crate::proofs::Within::together_within))]
pub fn scratch_of(plan: &Plan<RankOp>, rank: u32) -> u32
    requires { rank < plan.now.ranks }
    ensures exact { result ≡ scratch_needed rank plan.now.steps }
    ensures together { (v : ShapesView) → AreWithinArrays v plan.now.steps →
        all_scratch plan.now.ranks plan.now.steps ≤ all_array_words plan.now.ranks v }
{
    let mut most = 0;
    for k in 0..plan.len() {
        let used = used_at(plan, rank, k);
        if used > most {
            most = used;
        }
    }
    most
}
