//! The tasks of the ranks: their own operations by place, with the buffers of their messages.
ghost use Rattle.std.specs.Prelude.{◌≡◌, ◌<◌, ◌≤◌, ◌+◌, ℕ, IfOk, OnOk, All, [], length, vec_len};
ghost use Rattle.rank_runner.specs.Tasks.{HasBuffer};
ghost use Rattle.rank_runner.specs.Outfits.{AreTasks};

use crate::post::Task;
use msg_core::{Kind, Plan, Step};
use std::alloc::{AllocError, Global};

// The buffer of an operation's message, if it sends one.
fn buffer_for<Op: Step>(alloc: Global, op: &Op) -> Result<Vec<i32>, AllocError>
    requires { Op.well_made op.now }
    ensures { IfOk result (λ v. HasBuffer (Op.kind_of op.now) v.items) }
{
    match op.kind() {
        Kind::Send { to: _, len } => vec![in alloc; 0; len as usize],
        Kind::Recv { from: _, len: _ } => Ok(Vec::new(alloc)),
        Kind::Local => Ok(Vec::new(alloc)),
    }
}

// The task of the step at a place, before those of the later ones.
fn add_task<Op: Step>(
    alloc: Global,
    plan: &Plan<Op>,
    place: u32,
    tasks: &mut Vec<Vec<Task>>,
) -> Result<(), AllocError>
    requires place { place < length plan.now.steps }
    requires tasks { AreTasks Op.Step plan.now.steps (place + 1) plan.now.ranks tasks.old.items }
    ensures { OnOk result (AreTasks Op.Step plan.now.steps place plan.now.ranks tasks.new.items) }
{
    plan.facts();
    let Some((rank, op)) = plan.op(place) else {
        unreachable!()
    };
    let buffer = buffer_for(alloc, op)?;
    let list = &mut tasks[rank as usize];
    list.push(Task { place, buffer })?;
    Ok(())
}

// No task for each of so many ranks.
fn no_tasks(alloc: Global, ranks: usize) -> Result<Vec<Vec<Task>>, AllocError>
    ensures len { IfOk result (λ v. length v.items ≡ ranks) }
    ensures empty { IfOk result (λ v. All (λ ts. ts.items ≡ []) v.items) }
{
    let mut tasks = Vec::with_capacity(alloc, ranks)?;
    for _ in 0..ranks {
        tasks.push(Vec::new(alloc))?;
    }
    Ok(tasks)
}

/// The tasks of all ranks, by rank.
pub fn make_tasks<Op: Step>(alloc: Global, plan: &Plan<Op>) -> Result<Vec<Vec<Task>>, AllocError>
    ensures { IfOk result (λ v. AreTasks Op.Step plan.now.steps 0 plan.now.ranks v.items) }
{
    let mut tasks = no_tasks(alloc, plan.ranks() as usize)?;
    let mut place = plan.len();
    while place > 0 {
        place -= 1;
        add_task(alloc, plan, place, &mut tasks)?;
    }
    Ok(tasks)
}
