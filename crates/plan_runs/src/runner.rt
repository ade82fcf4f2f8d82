//! What runs a plan.
ghost use Rattle.std.specs.Prelude.{◌≡◌, IfOk};
ghost use Rattle.plan_runs.specs.PlanRuns.{CanRun, nodes_after};

use msg_core::Plan;
use pack_words::{RankMem, RankOp};
use std::alloc::{AllocError, Global};

/// A way to run a plan on the memories of its ranks.
pub trait Runner {
    /// The memories after the whole plan, by rank: they are those of the plan in its own order. All buffers are taken before
    /// the first operation, and the only refusal is out of memory.
    fn run(
        &self,
        alloc: Global,
        plan: Plan<RankOp>,
        nodes: Vec<RankMem>,
    ) -> Result<Vec<RankMem>, AllocError>
        requires { CanRun plan nodes.items }
        ensures { IfOk result (λ v. v.items ≡ nodes_after plan.steps nodes.items) };
}
