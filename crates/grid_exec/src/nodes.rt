//! The memories of the ranks before the first exchange.

ghost use Rattle.std.specs.Prelude.{◌≡◌, ◌<◌, length, map, slice_index_or, IfOk};
ghost use Rattle.pack_words.specs.GridState.{HasRoom, arrays_held};
ghost use Rattle.array_contents.specs.Contents.{arrays_of};

use crate::rooms::rooms_of;
use msg_core::Plan;
use pack_words::{LocalArray, RankMem, RankOp};
use std::alloc::{AllocError, Global};

// The memory of a rank, with the room for its combines.
fn node_of(
    alloc: Global,
    arrays: Vec<LocalArray>,
    rooms: &[u32],
    rank: u32,
) -> Result<RankMem, AllocError>
    requires { rank < length rooms.now }
    ensures arrays { IfOk result (λ m. arrays_held m ≡ arrays.items) }
    ensures room { IfOk result (λ m. length m.held ≡ slice_index_or rooms.now rank 0) }
{
    RankMem::new(alloc, arrays, rooms[rank as usize])
}

/// The memories of all ranks, with these arrays.
#[tactic(auto, using(crate::proofs::NodeLaws::no_nodes, crate::proofs::NodeLaws::count_is, crate::proofs::NodeLaws::one_more_held, crate::proofs::NodeLaws::one_more_room, crate::proofs::NodeLaws::room_for_all))]
pub(crate) fn nodes_of(
    alloc: Global,
    arrays: Vec<Vec<LocalArray>>,
    plan: &Plan<RankOp>,
) -> Result<Vec<RankMem>, AllocError>
    requires { length arrays.items ≡ plan.now.ranks }
    ensures arrays { IfOk result (λ v. map arrays_held v.items ≡ arrays_of arrays.items) }
    ensures len { IfOk result (λ v. length v.items ≡ plan.now.ranks) }
    ensures room { IfOk result (λ v. HasRoom plan.now.steps v.items) }
{
    let _ranks = plan.ranks();
    let rooms = rooms_of(alloc, plan)?;
    let mut nodes = Vec::with_capacity(alloc, arrays.len())?;
    for mine in arrays {
        let rank = nodes.len() as u32;
        let node = node_of(alloc, mine, &rooms, rank)?;
        nodes.push(node)?;
    }
    Ok(nodes)
}
