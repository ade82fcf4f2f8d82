//! The room that the combines of each rank need.

ghost use Rattle.std.specs.Prelude.{◌≡◌, ◌<◌, ◌+◌, length, take, max, slice_set, slice_index_or, IfOk};
ghost use Rattle.grid_exec.specs.Nodes.{AreRooms};

use msg_core::Plan;
use pack_words::RankOp;
use std::alloc::{AllocError, Global};

// Room for an operation that uses so many elements of a rank's accumulator.
fn raise(rooms: &mut Vec<u32>, rank: u32, used: u32)
    requires { rank < length rooms.old.items }
    ensures { rooms.new.items ≡ slice_set rooms.old.items rank (max (slice_index_or rooms.old.items rank 0) used) }
{
    let room = rooms[rank as usize];
    rooms[rank as usize] = room.max(used);
}

// Room for the operation at place `k`, too.
fn raise_at(plan: &Plan<RankOp>, k: u32, rooms: &mut Vec<u32>)
    requires place { k < length plan.now.steps }
    requires ranks { length rooms.old.items ≡ plan.now.ranks }
    ensures len { length rooms.new.items ≡ plan.now.ranks }
    ensures rooms { AreRooms (take k plan.now.steps) rooms.old.items → AreRooms (take (k + 1) plan.now.steps) rooms.new.items }
{
    plan.facts();
    match plan.op(k) {
        Some((rank, op)) => raise(rooms, rank, op.elements()),
        None => unreachable!(),
    }
}

/// By rank, the most elements that one of its operations uses of its accumulator. One pass over the plan.
#[tactic(auto, using(crate::proofs::RoomLaws::no_rooms, crate::proofs::RoomLaws::all_rooms))]
pub(crate) fn rooms_of(alloc: Global, plan: &Plan<RankOp>) -> Result<Vec<u32>, AllocError>
    ensures len { IfOk result (λ v. length v.items ≡ plan.now.ranks) }
    ensures rooms { IfOk result (λ v. AreRooms plan.now.steps v.items) }
{
    let mut rooms = vec![in alloc; 0; plan.ranks() as usize]?;
    for k in 0..plan.len() {
        raise_at(plan, k, &mut rooms);
    }
    Ok(rooms)
}
