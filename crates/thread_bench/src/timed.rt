//! The timed runs: in order, and with threads.
ghost use Rattle.move_tests.specs.MovePlans.{IsTrial};

use move_tests::trial::Trial;
use pack_words::RankMem;
use proc_grid::Contexts;
use rank_runner::OpenGate;
use std::alloc::{Alloc, Global};
use std::sync::Wait;
use std::test::Fail;
use std::thread::Threads;
use std::time::{Clock, Instant};
use thread_tests::ready_moves::ready_trial;
use thread_tests::setting::marks;

/// The microseconds of taking the buffers, and of the run.
#[derive(Clone, Copy, Debug)]
pub struct Times {
    pub prepare: u128,
    pub run: u128,
}

/// The memories after the run in order.
pub fn run_in_order<R: Alloc<A = Global> + Clock>(
    rt: &R,
    trial: Trial,
) -> Result<(Contexts, Vec<RankMem>, Times), Fail>
    requires { IsTrial trial }
{
    let nodes = trial.memories(rt.alloc(), &[marks(0), marks(1)])?;
    let start = Instant::now(rt)?;
    let (contexts, stage) = trial.ready(rt.alloc(), nodes)?;
    let prepare = start.elapsed(rt)?.as_micros();
    let start = Instant::now(rt)?;
    let after = stage.run_in_order();
    let run = start.elapsed(rt)?.as_micros();
    Ok((contexts, after, Times { prepare, run }))
}

/// The memories after the run with so many threads at most.
pub fn run_by_threads<R: Threads + Wait + Sync + Alloc<A = Global> + Clock>(
    rt: &R,
    trial: Trial,
    most: u32,
) -> Result<(Contexts, Vec<RankMem>, Times), Fail>
    requires { IsTrial trial }
{
    let nodes = trial.memories(rt.alloc(), &[marks(0), marks(1)])?;
    let start = Instant::now(rt)?;
    let (contexts, ready) = ready_trial(rt, rt.alloc(), trial, nodes)?;
    let prepare = start.elapsed(rt)?.as_micros();
    let start = Instant::now(rt)?;
    let (after, _desks) = ready.run_threads_most(rt, &OpenGate, most);
    let run = start.elapsed(rt)?.as_micros();
    Ok((contexts, after, Times { prepare, run }))
}
