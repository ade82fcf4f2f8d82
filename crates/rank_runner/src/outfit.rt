//! All that a run needs beside the memories, taken before it.
ghost use Rattle.std.specs.Prelude.{◌≡◌, ◌<◌, ◌≤◌, ℕ, IfOk, All, [], length, vec_len, vec_capacity};
ghost use Rattle.mail_room.specs.Desks.{AreRows, AreNewDesks, capacities};
ghost use Rattle.msg_core.specs.InOrder.{letters};
ghost use Rattle.msg_core.specs.Kinds.{kinds_of};
ghost use Rattle.rank_runner.specs.Capacity.{occupancy_caps};
ghost use Rattle.rank_runner.specs.Outfits.{IsOutfit};
ghost use Rattle.rank_runner.specs.Stacks.{HasRoom, posts_in};

use crate::fan::Worker;
use crate::post::Task;
use crate::tasks::make_tasks;
use crossbeam_utils::CachePadded;
use mail_room::{Desk, Letters, Room};
use msg_core::{Node, Plan};
use std::alloc::{AllocError, Global};
use std::marker::Brand;

/// The ranks' tasks and desks, the workers with room for their posts, and the room of what a run hands back.
#[derive(Drop)]
pub struct Outfit<N: Node> {
    pub tasks: Vec<Vec<Task>>,
    pub desks: Vec<Desk>,
    pub workers: Vec<CachePadded<Worker<N>>>,
    pub nodes: Vec<N>,
    pub end_desks: Vec<Desk>,
}

// The room of the messages that V names, which are those of the plan.
fn named_room<V: Letters, N: Node, R: Sync>(
    rt: &R,
    alloc: Global,
    rows: &[(u32, u32, u32)],
    plan: &Plan<N::Op>,
    _nodes: &[N],
) -> Result<Room, AllocError>
    requires rows { AreRows plan.now.ranks rows.now }
    requires names { V.letters ≡ letters N.Op.Step N.Node plan.now.steps _nodes.now }
    ensures count { IfOk result (λ r. length r ≡ plan.now.ranks) }
    ensures desks { IfOk result (AreNewDesks (letters N.Op.Step N.Node plan.now.steps _nodes.now) (capacities rows.now)) }
{
    Room::new::<V, R>(rt, alloc, plan.ranks(), rows)
}

// The desks of the plan's ranks, with a queue of its occupancy for each pair that has a message.
fn make_desks<N: Node, R: Sync>(
    rt: &R,
    alloc: Global,
    plan: &Plan<N::Op>,
    nodes: &[N],
) -> Result<Vec<Desk>, AllocError>
    ensures count { IfOk result (λ v. length v.items ≡ plan.now.ranks) }
    ensures desks { IfOk result (λ v. AreNewDesks (letters N.Op.Step N.Node plan.now.steps nodes.now)
        (occupancy_caps (kinds_of N.Op.Step plan.now.steps)) v.items) }
{
    plan.facts();
    let rows = plan.occupancies()?;
    let room = named_room::<Brand, N, R>(rt, alloc, &rows, plan, nodes)?;
    let desks = room.desks()?;
    Ok(desks)
}

// So many workers, each with room for as many posts.
fn make_workers<N: Node + Drop>(
    alloc: Global,
    ranks: usize,
) -> Result<Vec<CachePadded<Worker<N>>>, AllocError>
    ensures len { IfOk result (λ v. length v.items ≡ ranks) }
    ensures empty { IfOk result (λ v. All (λ w. posts_in w ≡ []) v.items) }
    ensures room { IfOk result (λ v. All (HasRoom ranks) v.items) }
{
    let mut workers = Vec::with_capacity(alloc, ranks)?;
    for _ in 0..ranks {
        let posts = Vec::with_capacity(alloc, ranks)?;
        workers.push(CachePadded::new(Worker { posts }))?;
    }
    Ok(workers)
}

/// All of it, for a plan and its memories.
pub fn make_outfit<N: Node + Drop, R: Sync>(
    rt: &R,
    alloc: Global,
    plan: &Plan<N::Op>,
    nodes: &[N],
) -> Result<Outfit<N>, AllocError>
    requires { length nodes.now ≡ plan.now.ranks }
    ensures { IfOk result (IsOutfit N.Op.Step N.Node plan.now.steps nodes.now) }
{
    let desks = make_desks(rt, alloc, plan, nodes)?;
    let tasks = make_tasks(alloc, plan)?;
    let ranks = plan.ranks() as usize;
    let workers = make_workers(alloc, ranks)?;
    let room = Vec::with_capacity(alloc, ranks)?;
    let end_desks = Vec::with_capacity(alloc, ranks)?;
    Ok(Outfit {
        tasks,
        desks,
        workers,
        nodes: room,
        end_desks,
    })
}
