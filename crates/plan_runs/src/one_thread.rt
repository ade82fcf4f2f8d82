//! One thread, which does the operations of all ranks.
ghost use Rattle.std.specs.Prelude.{◌≡◌, IfOk};
ghost use Rattle.plan_runs.specs.PlanRuns.{CanRun, nodes_after};

use crate::runner::Runner;
use msg_core::{Plan, SeedPicks, Stage};
use pack_words::{RankMem, RankOp};
use std::alloc::{AllocError, Global};

/// Runs in the plan's own order, or in that which a seed draws.
#[derive(Clone, Copy, Debug, Drop)]
pub struct OneThread {
    pub seed: Option<u64>,
}

// The memories after the run.
fn run_stage(stage: Stage<RankMem>, seed: Option<u64>) -> Vec<RankMem>
    ensures { result.items ≡ nodes_after stage.steps stage.nodes }
{
    match seed {
        None => stage.run_in_order(),
        Some(seed) => {
            let (nodes, _trace) = stage.run_schedule(&mut SeedPicks::new(seed));
            nodes
        }
    }
}

impl Runner for OneThread {
    fn run(
        &self,
        alloc: Global,
        plan: Plan<RankOp>,
        nodes: Vec<RankMem>,
    ) -> Result<Vec<RankMem>, AllocError> {
        match Stage::prepare(alloc, plan, nodes) {
            Ok(stage) => Ok(run_stage(stage, self.seed)),
            Err(_) => Err(AllocError),
        }
    }
}
