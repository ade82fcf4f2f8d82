//! The workers, each on a thread of its own.
ghost use Rattle.std.specs.Prelude.{◌≡◌, ◌<◌, ℕ, All, map, length, slice_index_or};
ghost use Rattle.rank_runner.specs.Stands.{IsReady, fate, outcome};
ghost use Rattle.rank_runner.specs.Stacks.{posts_in, IsReadyWorker};

use crate::gate::Gate;
use crate::post::Post;
use crate::turn::run_posts;
use crossbeam_utils::CachePadded;
use msg_core::Node;
use std::sync::Wait;
use std::thread;
use std::thread::Threads;

/// The posts of the ranks that one worker has.
#[derive(Drop)]
pub struct Worker<N: Node> {
    pub posts: Vec<Post<N>>,
}

fn run_worker<N: Node, G: Gate, R: Wait>(
    rt: &R,
    gate: &G,
    steps: &[(u32, N::Op)],
    worker: &mut Worker<N>,
)
    requires { All (IsReady N.Op.Step N.Node steps.now) worker.old.posts.items }
    ensures { map outcome worker.new.posts.items ≡ map (fate N.Op.Step N.Node steps.now) worker.old.posts.items }
{
    run_posts(rt, gate, steps, &mut worker.posts);
}

fn run_padded<N: Node, G: Gate, R: Wait>(
    rt: &R,
    gate: &G,
    steps: &[(u32, N::Op)],
    worker: &mut CachePadded<Worker<N>>,
)
    requires { IsReadyWorker N.Op.Step N.Node steps.now worker.old }
    ensures { map outcome (posts_in worker.new) ≡ map (fate N.Op.Step N.Node steps.now) (posts_in worker.old) }
{
    run_worker(rt, gate, steps, &mut *worker);
}

fn run_each<N: Node + Send, G: Gate + Sync, R: Threads + Wait + Sync>(
    rt: &R,
    gate: &G,
    steps: &[(u32, N::Op)],
    workers: &mut [CachePadded<Worker<N>>],
)
where
    N::Op: Send + Sync,
    requires { All (IsReadyWorker N.Op.Step N.Node steps.now) workers.old }
    ensures { (i : ℕ) (d : _) → i < length workers.old → map outcome (posts_in (slice_index_or workers.new i d)) ≡ map (fate N.Op.Step N.Node steps.now) (posts_in (slice_index_or workers.old i d)) }
{
    let threads = workers.len();
    if threads == 0 {
        return;
    }
    thread::for_each_mut(
        rt,
        workers,
        threads,
        &|_place, worker| run_padded(rt, gate, steps, worker),
    );
}

/// Runs all workers, one on each thread.
pub fn run_all<N: Node + Send, G: Gate + Sync, R: Threads + Wait + Sync>(
    rt: &R,
    gate: &G,
    steps: &[(u32, N::Op)],
    workers: &mut [CachePadded<Worker<N>>],
)
where
    N::Op: Send + Sync,
    requires { All (IsReadyWorker N.Op.Step N.Node steps.now) workers.old }
    ensures { map (λ w. map outcome (posts_in w)) workers.new ≡ map (λ w. map (fate N.Op.Step N.Node steps.now) (posts_in w)) workers.old }
{
    run_each(rt, gate, steps, workers);
}
