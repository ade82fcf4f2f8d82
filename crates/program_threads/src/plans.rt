//! Plans of rank operations on threads.
ghost use Rattle.std.specs.Prelude.{◌≡◌, IfOk};
ghost use Rattle.pack_words.specs.GridState.{rank_steps, rank_nodes};
ghost use Rattle.plan_runs.specs.PlanRuns.{CanRun, nodes_after};
ghost use Rattle.rank_runner.specs.Ends.{AreEndDesks};

use mail_room::Desk;
use msg_core::Plan;
use pack_words::{RankMem, RankOp};
use rank_runner::{Gate, Ready};
use std::alloc::{AllocError, Global};
use std::sync::Wait;
use std::thread::Threads;

/// Runs a plan with one thread for each rank. If it returns, the memories are those of the plan in its own order, by rank;
/// and each rank's desk has put every message of its pairs and taken every one that the plan receives. All queues and buffers
/// are taken before the first operation, and the only refusal is out of memory. Where the system makes no thread it may never
/// return.
pub fn run_plan_threads<G: Gate + Sync, R: Threads + Wait + Sync>(
    rt: &R,
    alloc: Global,
    plan: Plan<RankOp>,
    nodes: Vec<RankMem>,
    gate: &G,
) -> Result<(Vec<RankMem>, Vec<Desk>), AllocError>
    requires { CanRun plan nodes.items }
    ensures nodes { IfOk result (λ r. r.0.items ≡ nodes_after plan.steps nodes.items) }
    ensures desks { IfOk result (λ r. AreEndDesks rank_steps rank_nodes plan.steps nodes.items r.1.items) }
{
    match Ready::prepare(rt, alloc, plan, nodes) {
        Ok(ready) => Ok(ready.run_threads(rt, gate)),
        Err(_) => Err(AllocError),
    }
}
