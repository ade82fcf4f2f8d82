//! Plans with all that a run on threads needs.
ghost use Rattle.std.specs.Prelude.{◌≡◌, ◌<◌, ◌≤◌, IfOk, IfErr, None, Some, [], All, map, length, slice_get, vec_capacity};
ghost use Rattle.rank_runner.specs.Stacks.{HasRoom, posts_in};
ghost use Rattle.mail_room.specs.Desks.{DeskView, side_at, capacity_of};
ghost use Rattle.msg_core.specs.Plans.{AllCan, word_count};
ghost use Rattle.msg_core.specs.Kinds.{kinds_of};
ghost use Rattle.msg_core.specs.Runs.{EveryRunIsInOrder};
ghost use Rattle.msg_core.specs.Stages.{end_nodes};
ghost use Rattle.rank_runner.specs.Capacity.{occupancy_caps};
ghost use Rattle.rank_runner.specs.Ends.{AreEndDesks};
ghost use Rattle.rank_runner.specs.Outfits.{IsOutfit};
ghost use Rattle.rank_runner.specs.Seats.{seat_fates, CanSit, first_of, second_of};

use crate::deal::{collect, deal};
use crate::fan::{Worker, run_all};
use crate::gate::Gate;
use crate::outfit::{Outfit, make_outfit};
use crate::post::Task;
use crossbeam_utils::CachePadded;
use mail_room::Desk;
use msg_core::{Node, Plan, StageErr};
use std::alloc::Global;
use std::marker::Model;
use std::sync::Wait;
use std::thread::Threads;

/// A plan with the memories of its ranks, the queues of its pairs and all buffers of a run on threads. Contracts see the memories and the operations.
#[derive(Drop)]
pub struct Ready<N: Node> {
    plan: Plan<N::Op>,
    nodes: Vec<N>,
    outfit: Outfit<N>,
}

impl<N: Node> Model for Ready<N> {
    ghost use Rattle.std.specs.Prelude.{◌≡◌, length};
    ghost use Rattle.msg_core.specs.Stages.{StageView};

    ghost Value = { StageView N N.Op };

    ghost use Rattle.msg_core.specs.Stages.{IsStage};
    ghost use Rattle.rank_runner.specs.Outfits.{IsOutfit};

    ghost view = { λ s. record { nodes = s.nodes.items; steps = s.plan.steps } };

    ghost invariant = { λ s. IsStage N.Op.Step N.Node s.plan.steps s.nodes.items × IsOutfit N.Op.Step N.Node s.plan.steps s.nodes.items s.outfit × (length s.nodes.items ≡ s.plan.ranks) };
}

// The greater of 1 and the lesser of `most` and the number of ranks.
fn worker_count(most: u32, ranks: usize) -> usize
    requires { 0 < ranks }
    ensures { (0 < result) × (result ≤ ranks) }
{
    let wanted = (most as usize).max(1);
    wanted.min(ranks)
}

// The capacity of the queue from one rank to another: None where there is no such rank or no queue.
fn capacity_at(desks: &[Desk], from: u32, to: u32) -> Option<u32>
    ensures some { (d : DeskView) → slice_get desks.now from ≡ Some d →
        result ≡ capacity_of (side_at d.outs to) }
    ensures none { length desks.now ≤ from → result ≡ None }
{
    if from as usize >= desks.len() {
        return None;
    }
    let desk = &desks[from as usize];
    desk.capacity_to(to)
}

// Deals the ranks to the workers, runs these, and collects what they leave.
fn run_dealt<N: Node + Send + Drop, G: Gate + Sync, R: Threads + Wait + Sync>(
    rt: &R,
    gate: &G,
    steps: &[(u32, N::Op)],
    workers: &mut [CachePadded<Worker<N>>],
    nodes: &mut Vec<N>,
    tasks: &mut Vec<Vec<Task>>,
    desks: &mut Vec<Desk>,
    end_nodes: &mut Vec<N>,
    end_desks: &mut Vec<Desk>,
)
where
    N::Op: Send + Sync,
    requires some { 0 < length workers.old }
    requires few { length nodes.old.items ≤ 64 }
    requires tasks { length tasks.old.items ≡ length nodes.old.items }
    requires desks { length desks.old.items ≡ length nodes.old.items }
    requires seats { CanSit N.Op.Step N.Node steps.now nodes.old.items tasks.old.items desks.old.items }
    requires free { All (λ w. posts_in w ≡ []) workers.old }
    requires room { All (HasRoom (length nodes.old.items)) workers.old }
    requires empty { (end_nodes.old.items ≡ []) × (end_desks.old.items ≡ []) }
    requires end_room { (length nodes.old.items ≤ vec_capacity end_nodes.old) × (length nodes.old.items ≤ vec_capacity end_desks.old) }
    ensures nodes { end_nodes.new.items ≡ map first_of (seat_fates N.Op.Step N.Node steps.now nodes.old.items tasks.old.items desks.old.items) }
    ensures desks { end_desks.new.items ≡ map second_of (seat_fates N.Op.Step N.Node steps.now nodes.old.items tasks.old.items desks.old.items) }
{
    let total = nodes.len();
    let count = workers.len();
    deal(steps, count, workers, nodes, tasks, desks);
    run_all(rt, gate, steps, workers);
    collect(count, total, workers, end_nodes, end_desks);
}

// The same by so many of an outfit's workers.
fn run_outfit<N: Node + Send + Drop, G: Gate + Sync, R: Threads + Wait + Sync>(
    rt: &R,
    gate: &G,
    steps: &[(u32, N::Op)],
    mut nodes: Vec<N>,
    outfit: Outfit<N>,
    count: usize,
) -> (Vec<N>, Vec<Desk>)
where
    N::Op: Send + Sync,
    requires count { (0 < count) × (count ≤ length nodes.items) }
    requires few { length nodes.items ≤ 64 }
    requires outfit { IsOutfit N.Op.Step N.Node steps.now nodes.items outfit }
    requires seats { CanSit N.Op.Step N.Node steps.now nodes.items outfit.tasks.items outfit.desks.items }
    ensures nodes { result.0.items ≡ map first_of (seat_fates N.Op.Step N.Node steps.now nodes.items outfit.tasks.items outfit.desks.items) }
    ensures desks { result.1.items ≡ map second_of (seat_fates N.Op.Step N.Node steps.now nodes.items outfit.tasks.items outfit.desks.items) }
{
    let Outfit {
        mut tasks,
        mut desks,
        mut workers,
        nodes: mut end_nodes,
        mut end_desks,
    } = outfit;
    workers.truncate(count);
    run_dealt(
        rt,
        gate,
        steps,
        workers.as_mut_slice(),
        &mut nodes,
        &mut tasks,
        &mut desks,
        &mut end_nodes,
        &mut end_desks,
    );
    (end_nodes, end_desks)
}

impl<N: Node + Drop> Ready<N> {
    /// Takes every queue and every buffer that a run needs. There is one node for each rank, each can do its operations, and the plan's messages have at most 2^26 words. The only refusal is out of memory, and it hands back both.
    pub fn prepare<R: Sync>(
        rt: &R,
        alloc: Global,
        plan: Plan<N::Op>,
        nodes: Vec<N>,
    ) -> Result<Ready<N>, StageErr<N>>
        requires ranks { length nodes.items ≡ plan.ranks }
        requires can { AllCan N.Node nodes.items plan.steps }
        requires words { word_count N.Op.Step plan.steps ≤ 67108864 }
        ensures nodes { IfOk result (λ s. s.nodes ≡ nodes.items) }
        ensures steps { IfOk result (λ s. s.steps ≡ plan.steps) }
        ensures plan_back { IfErr result (λ e. e.plan ≡ plan) }
        ensures nodes_back { IfErr result (λ e. e.nodes ≡ nodes) }
    {
        plan.facts();
        match make_outfit(rt, alloc, &plan, &nodes) {
            Ok(outfit) => Ok(Ready {
                plan,
                nodes,
                outfit,
            }),
            Err(_) => Err(StageErr { plan, nodes }),
        }
    }

    /// The capacity of the pair's queue, which is the pair's occupancy: the most messages that wait at once where the plan is done in its order. None exactly where the pair has no message.
    pub fn capacity(&self, from: u32, to: u32) -> Option<u32>
        ensures { result ≡ occupancy_caps (kinds_of N.Op.Step self.now.steps) from to }
    {
        capacity_at(&self.outfit.desks, from, to)
    }
}

impl<N: Node + Send + Drop> Ready<N>
where
    N::Op: Send + Sync,
{
    /// Runs the plan by w workers, each on a thread of its own, where w is the greater of 1 and the lesser of `most` and the number of ranks. Worker k, from 0, has the ranks r with r mod w = k: it does one operation of each in turn, and passes over a rank whose queue is full or empty.
    ///
    /// If it returns, the nodes are those of the plan in its own order, by rank; and each rank's desk has put every message of its pairs and taken every one that the plan receives. It takes no memory and has no refusal. Where the system makes no thread it may never return.
    pub fn run_threads_most<G: Gate + Sync, R: Threads + Wait + Sync>(
        self,
        rt: &R,
        gate: &G,
        most: u32,
    ) -> (Vec<N>, Vec<Desk>)
        ensures nodes { result.0.items ≡ end_nodes N.Op.Step N.Node self.steps self.nodes }
        ensures desks { AreEndDesks N.Op.Step N.Node self.steps self.nodes result.1.items }
        ensures every_run { EveryRunIsInOrder N.Op.Step N.Node self.steps self.nodes }
    {
        let Ready {
            plan,
            nodes,
            outfit,
        } = self;
        plan.facts();
        let count = worker_count(most, nodes.len());
        let steps = plan.into_steps();
        run_outfit(rt, gate, steps.as_slice(), nodes, outfit, count)
    }

    /// The same, with a worker for each rank.
    pub fn run_threads<G: Gate + Sync, R: Threads + Wait + Sync>(
        self,
        rt: &R,
        gate: &G,
    ) -> (Vec<N>, Vec<Desk>)
        ensures nodes { result.0.items ≡ end_nodes N.Op.Step N.Node self.steps self.nodes }
        ensures desks { AreEndDesks N.Op.Step N.Node self.steps self.nodes result.1.items }
        ensures every_run { EveryRunIsInOrder N.Op.Step N.Node self.steps self.nodes }
    {
        self.run_threads_most(rt, gate, 64)
    }
}
