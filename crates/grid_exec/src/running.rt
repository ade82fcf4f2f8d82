//! A job is run.

ghost use Rattle.std.specs.Prelude.{◌≡◌, IfOk};
ghost use Rattle.grid_exec.specs.JobView.{arrays_after};

use crate::job::{Job, JobParts};
use plan_runs::{OneThread, Runner};
use program_results::Finished;
use std::alloc::{AllocError, Global};

/// The order in which one thread does the operations: the plan's own, or one that a seed draws.
#[derive(Clone, Copy, Debug, PartialEq, Eq)]
pub enum Mode {
    InOrder,
    Seed(u64),
}

/// The results of a job after its plan, which is run in this way. The only refusal is out of memory, and it comes before the
/// first operation.
pub fn finish_by<R: Runner>(alloc: Global, job: Job, runner: &R) -> Result<Finished, AllocError>
    ensures { IfOk result (λ f. f ≡ record { ends = job.ends; arrays = arrays_after job }) }
{
    let JobParts { plan, nodes, ends } = job.split();
    match runner.run(alloc, plan, nodes) {
        Ok(nodes) => Ok(Finished::new(ends, nodes)),
        Err(e) => Err(e),
    }
}

/// The results of a job after its plan, in its own order or in one that a seed draws: they are the same. The only refusal
/// is out of memory, and it comes before the first operation.
pub fn run_program(alloc: Global, job: Job, mode: Mode) -> Result<Finished, AllocError>
    ensures { IfOk result (λ f. f ≡ record { ends = job.ends; arrays = arrays_after job }) }
{
    let seed = match mode {
        Mode::InOrder => None,
        Mode::Seed(seed) => Some(seed),
    };
    finish_by(alloc, job, &OneThread { seed })
}
