//! Grid programs on threads.
ghost use Rattle.std.specs.Prelude.{◌≡◌, IfOk};
ghost use Rattle.pack_words.specs.GridState.{rank_steps, rank_nodes};
ghost use Rattle.grid_exec.specs.JobView.{arrays_after};
ghost use Rattle.rank_runner.specs.Ends.{AreEndDesks};

use crate::plans::run_plan_threads;
use grid_exec::{Job, JobParts};
use mail_room::Desk;
use program_results::Finished;
use rank_runner::Gate;
use std::alloc::{AllocError, Global};
use std::sync::Wait;
use std::thread::Threads;

/// The results of a job after its plan, which is run with one thread for each rank: as `grid_exec::run_program` has them. Beside
/// them stand the ranks' desks after the run. The only refusal is out of memory, and it comes before the first operation. Where
/// the system makes no thread it may never return.
pub fn run_program_threads<G: Gate + Sync, R: Threads + Wait + Sync>(
    rt: &R,
    alloc: Global,
    job: Job,
    gate: &G,
) -> Result<(Finished, Vec<Desk>), AllocError>
    ensures finished { IfOk result (λ r. r.0 ≡ record { ends = job.ends; arrays = arrays_after job }) }
    ensures desks { IfOk result (λ r. AreEndDesks rank_steps rank_nodes job.plan.steps job.nodes r.1.items) }
{
    let JobParts { plan, nodes, ends } = job.split();
    match run_plan_threads(rt, alloc, plan, nodes, gate) {
        Ok((nodes, desks)) => Ok((Finished::new(ends, nodes), desks)),
        Err(e) => Err(e),
    }
}
