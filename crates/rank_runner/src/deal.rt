//! The posts are dealt to the workers, rank r to worker r mod w, and collected by rank.
ghost use Rattle.std.specs.Prelude.{◌≡◌, ◌<◌, ◌≤◌, ◌+◌, ◌++◌, ℕ, suc, All, Some, None, List, [], ◌∷◌, map, length, slice_get, slice_set, vec_len, vec_capacity};
ghost use Rattle.rank_runner.specs.Stands.{IsReady, fate, outcome};
ghost use Rattle.rank_runner.specs.Stacks.{IsReadyWorker, HasRoom, posts_in, stacks, push_at, dealt};
ghost use Rattle.mail_room.specs.Desks.{DeskView};
ghost use Rattle.rank_runner.specs.Seats.{seat_fates, CanSit, first_of, second_of};

use crate::fan::Worker;
use crate::post::{Post, Task};
use crossbeam_utils::CachePadded;
use mail_room::Desk;
use msg_core::Node;

// The post of the last rank that is left, whose number is the number of the others.
fn last_post<N: Node>(
    nodes: &mut Vec<N>,
    tasks: &mut Vec<Vec<Task>>,
    desks: &mut Vec<Desk>,
) -> Post<N>
    requires some { 0 < length nodes.old.items }
    requires few { length nodes.old.items ≤ 64 }
    requires tasks { length tasks.old.items ≡ length nodes.old.items }
    requires desks { length desks.old.items ≡ length nodes.old.items }
    ensures nodes { nodes.old.items ≡ nodes.new.items ++ result.node ∷ [] }
    ensures tasks { tasks.old.items ≡ tasks.new.items ++ result.tasks ∷ [] }
    ensures desks { desks.old.items ≡ desks.new.items ++ result.desk ∷ [] }
    ensures fresh { (result.held ≡ None) × (result.done ≡ 0) }
{
    let Some(node) = nodes.pop() else {
        unreachable!()
    };
    let Some(list) = tasks.pop() else {
        unreachable!()
    };
    let Some(desk) = desks.pop() else {
        unreachable!()
    };
    Post {
        rank: nodes.len() as u32,
        done: 0,
        node,
        tasks: list,
        held: None,
        desk,
    }
}

fn add_post<N: Node>(worker: &mut Worker<N>, post: Post<N>)
    requires { vec_len worker.old.posts < vec_capacity worker.old.posts }
    ensures posts { worker.new.posts.items ≡ worker.old.posts.items ++ post ∷ [] }
    ensures len { vec_len worker.new.posts ≡ vec_len worker.old.posts + 1 }
    ensures room { vec_capacity worker.new.posts ≡ vec_capacity worker.old.posts }
{
    worker.posts.push_reserved(post);
}

fn add_padded<N: Node>(worker: &mut CachePadded<Worker<N>>, post: Post<N>)
    requires { HasRoom 1 worker.old }
    ensures posts { posts_in worker.new ≡ posts_in worker.old ++ post ∷ [] }
    ensures room { (m : ℕ) → HasRoom (suc m) worker.old → HasRoom m worker.new }
{
    add_post(&mut *worker, post);
}

// The post goes to worker k.
fn seat<N: Node>(
    _steps: &[(u32, N::Op)],
    workers: &mut [CachePadded<Worker<N>>],
    k: usize,
    post: Post<N>,
)
    requires place { k < length workers.old }
    requires room { All (HasRoom 1) workers.old }
    requires ready { IsReady N.Op.Step N.Node _steps.now post }
    requires workers { All (IsReadyWorker N.Op.Step N.Node _steps.now) workers.old }
    ensures ready { All (IsReadyWorker N.Op.Step N.Node _steps.now) workers.new }
    ensures room { (m : ℕ) → All (HasRoom (suc m)) workers.old → All (HasRoom m) workers.new }
    ensures len { length workers.new ≡ length workers.old }
    ensures stacks { stacks (fate N.Op.Step N.Node _steps.now) workers.new ≡
        push_at (stacks (fate N.Op.Step N.Node _steps.now) workers.old) k
        (fate N.Op.Step N.Node _steps.now post) }
{
    let worker = &mut workers[k];
    add_padded(worker, post);
}

/// Deals the posts of all ranks.
pub fn deal<N: Node>(
    steps: &[(u32, N::Op)],
    count: usize,
    workers: &mut [CachePadded<Worker<N>>],
    nodes: &mut Vec<N>,
    tasks: &mut Vec<Vec<Task>>,
    desks: &mut Vec<Desk>,
)
    requires count { (0 < count) × (length workers.old ≡ count) }
    requires few { length nodes.old.items ≤ 64 }
    requires tasks { length tasks.old.items ≡ length nodes.old.items }
    requires desks { length desks.old.items ≡ length nodes.old.items }
    requires seats { CanSit N.Op.Step N.Node steps.now nodes.old.items tasks.old.items desks.old.items }
    requires empty { All (λ w. posts_in w ≡ []) workers.old }
    requires room { All (HasRoom (length nodes.old.items)) workers.old }
    ensures ready { All (IsReadyWorker N.Op.Step N.Node steps.now) workers.new }
    ensures stacks { stacks (fate N.Op.Step N.Node steps.now) workers.new ≡
        dealt count 0 (seat_fates N.Op.Step N.Node steps.now nodes.old.items tasks.old.items desks.old.items) }
{
    while !nodes.is_empty() {
        let post = last_post(nodes, tasks, desks);
        seat(steps, workers, nodes.len() % count, post);
    }
}

fn pop_post<N: Node>(worker: &mut Worker<N>) -> Post<N>
    requires { 0 < length worker.old.posts.items }
    ensures { worker.old.posts.items ≡ worker.new.posts.items ++ result ∷ [] }
{
    match worker.posts.pop() {
        Some(post) => post,
        None => unreachable!(),
    }
}

fn pop_padded<N: Node>(worker: &mut CachePadded<Worker<N>>) -> Post<N>
    requires { 0 < length (posts_in worker.old) }
    ensures { posts_in worker.old ≡ posts_in worker.new ++ result ∷ [] }
{
    pop_post(&mut *worker)
}

// The top post of worker k.
fn unseat<N: Node>(workers: &mut [CachePadded<Worker<N>>], k: usize) -> Post<N>
    requires { (x : N × DeskView) × (xs : List (N × DeskView)) × (slice_get (stacks outcome workers.old) k ≡ Some (x ∷ xs)) }
    ensures { (x : N × DeskView) (xs : List (N × DeskView)) → slice_get (stacks outcome workers.old) k ≡ Some (x ∷ xs) →
        (outcome result ≡ x) × (stacks outcome workers.new ≡ slice_set (stacks outcome workers.old) k xs) }
{
    let worker = &mut workers[k];
    pop_padded(worker)
}

/// The memories and the desks of all ranks, by rank.
pub fn collect<N: Node + Drop>(
    count: usize,
    total: usize,
    workers: &mut [CachePadded<Worker<N>>],
    nodes: &mut Vec<N>,
    desks: &mut Vec<Desk>,
)
    requires count { 0 < count }
    requires dealt { (all : List (N × DeskView)) × (length all ≡ total) × (stacks outcome workers.old ≡ dealt count 0 all) }
    requires empty { (nodes.old.items ≡ []) × (desks.old.items ≡ []) }
    requires room { (total ≤ vec_capacity nodes.old) × (total ≤ vec_capacity desks.old) }
    ensures nodes { (all : List (N × DeskView)) → length all ≡ total → stacks outcome workers.old ≡ dealt count 0 all → nodes.new.items ≡ map first_of all }
    ensures desks { (all : List (N × DeskView)) → length all ≡ total → stacks outcome workers.old ≡ dealt count 0 all → desks.new.items ≡ map second_of all }
{
    for rank in 0..total {
        let Post {
            rank: _,
            done: _,
            node,
            tasks: _,
            held: _,
            desk,
        } = unseat(workers, rank % count);
        nodes.push_reserved(node);
        desks.push_reserved(desk);
    }
}
