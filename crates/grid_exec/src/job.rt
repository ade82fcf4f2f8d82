//! The job of a program.

ghost use Rattle.std.specs.Prelude.{◌≡◌, map};
ghost use Rattle.pack_words.specs.GridState.{arrays_held};
ghost use Rattle.plan_runs.specs.PlanRuns.{CanRun};
ghost use Rattle.program_results.specs.Standing.{Fits};
ghost use Rattle.grid_exec.specs.JobView.{IsReady, arrays_after};

use msg_core::Plan;
use pack_words::{RankMem, RankOp};
use program_results::Ends;
use std::marker::Model;

/// The plan of a program's exchanges, the memories of its ranks before them, and its results: ready to run.
#[derive(Drop)]
pub struct Job {
    plan: Plan<RankOp>,
    nodes: Vec<RankMem>,
    ends: Ends,
}

impl Model for Job {
    ghost use Rattle.grid_exec.specs.JobView.{JobView};

    ghost Value = { JobView };

    ghost use Rattle.grid_exec.specs.JobInside.{job_view, IsJob};

    ghost view = { job_view };

    ghost invariant = { IsJob };
}

/// What a job is made of.
#[derive(Drop)]
pub struct JobParts {
    pub plan: Plan<RankOp>,
    pub nodes: Vec<RankMem>,
    pub ends: Ends,
}

impl Job {
    /// The job of a plan that these memories can do.
    pub(crate) fn new(plan: Plan<RankOp>, nodes: Vec<RankMem>, ends: Ends) -> Job
        requires { IsReady (record { plan = plan; nodes = nodes.items; ends = ends }) }
        ensures plan { result.plan ≡ plan }
        ensures nodes { result.nodes ≡ nodes.items }
        ensures ends { result.ends ≡ ends }
    {
        Job { plan, nodes, ends }
    }

    /// The plan, the memories of the ranks, and the results: the memories can do the plan, and the results fit what they
    /// hold after it. It takes no memory.
    pub fn split(self) -> JobParts
        ensures plan { result.plan ≡ self.plan }
        ensures nodes { result.nodes.items ≡ self.nodes }
        ensures ends { result.ends ≡ self.ends }
        ensures can { CanRun self.plan self.nodes }
        ensures fits { Fits self.ends (arrays_after self) }
    {
        let Job { plan, nodes, ends } = self;
        JobParts { plan, nodes, ends }
    }
}
