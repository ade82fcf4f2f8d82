//! Plans of operations that the ranks can do, and both their runs.

ghost use Rattle.std.specs.Prelude.{◌≡◌, ◌<◌, ◌≤◌, Some, length, slice_get, IfSome};
ghost use Rattle.std.specs.List.{AllByRecursion};
ghost use Rattle.msg_core.specs.Plans.{AllCan};
ghost use Rattle.pack_words.specs.GridState.{rank_nodes};

use crate::able::{ROOM, can_do};
use msg_core::{Kind, Plan, SeedPicks, Stage, StageErr, Step};
use pack_words::{LocalArray, RankMem, RankOp};
use std::alloc::Global;

// The rank of that number.
fn node_of(nodes: &[RankMem], rank: u32) -> Option<&RankMem>
    ensures { IfSome result (λ n. slice_get nodes.now rank ≡ Some n.now) }
{
    nodes.get(rank as usize)
}

// Appends an operation, and answers whether it could: not one that its rank can't do, nor one to or from a rank that
// isn't there, nor a receive without its message, nor out of memory.
fn add(alloc: Global, plan: &mut Plan<RankOp>, nodes: &[RankMem], rank: u32, op: RankOp) -> bool
    requires ranks { length nodes.now ≡ plan.old.ranks }
    requires rooms { AllByRecursion (λ n. length n.held ≡ 2) nodes.now }
    requires all { AllCan rank_nodes nodes.now plan.old.steps }
    ensures all { AllCan rank_nodes nodes.now plan.new.steps }
    ensures ranks { plan.new.ranks ≡ plan.old.ranks }
{
    let Some(node) = node_of(nodes, rank) else {
        return false;
    };
    if !can_do(alloc, node, &op) {
        return false;
    }
    match op.kind() {
        Kind::Send { to, len: _ } => to < plan.ranks() && plan.push_send(rank, op).is_ok(),
        Kind::Recv { from, len: _ } => from < plan.ranks() && plan.push_recv(rank, op).is_ok(),
        Kind::Local => plan.push_local(rank, op).is_ok(),
    }
}

// Two ranks with these arrays, and room for two elements each.
fn two_ranks(alloc: Global, first: Vec<LocalArray>, second: Vec<LocalArray>) -> Option<Vec<RankMem>>
    ensures count { IfSome result (λ nodes. length nodes.items ≡ 2) }
    ensures rooms { IfSome result (λ nodes. AllByRecursion (λ n. length n.held ≡ 2) nodes.items) }
{
    let first = RankMem::new(alloc, first, ROOM).ok()?;
    let second = RankMem::new(alloc, second, ROOM).ok()?;
    Vec::from_array(alloc, [first, second]).ok()
}

/// The plan of these operations by two ranks with these arrays, each with room for two elements, ready to run: None
/// where they can't do it, or out of memory.
pub fn staged(
    alloc: Global,
    first: Vec<LocalArray>,
    second: Vec<LocalArray>,
    ops: Vec<(u32, RankOp)>,
) -> Option<Stage<RankMem>> {
    let nodes = two_ranks(alloc, first, second)?;
    let mut plan = Plan::new(alloc, 2).ok()?;
    for (rank, op) in ops {
        if !add(alloc, &mut plan, &nodes, rank, op) {
            return None;
        }
    }
    if plan.words() > 67_108_864 {
        return None;
    }
    match Stage::prepare(alloc, plan, nodes) {
        Ok(stage) => Some(stage),
        Err(StageErr { plan: _, nodes: _ }) => None,
    }
}

/// The ranks after a run in order, or by a schedule drawn from a seed.
pub fn run(stage: Stage<RankMem>, seed: Option<u64>) -> Vec<RankMem> {
    match seed {
        None => stage.run_in_order(),
        Some(seed) => {
            let (nodes, _trace) = stage.run_schedule(&mut SeedPicks::new(seed));
            nodes
        }
    }
}

/// An array of so many rows, which has these words by columns: None out of memory, or where the words are no whole columns.
pub fn array_of(alloc: Global, rows: u32, words: &[i32]) -> Option<LocalArray> {
    if rows == 0 || words.len() > 64 {
        return None;
    }
    let mut array = LocalArray::new(alloc, rows, words.len() as u32 / rows).ok()?;
    for (k, word) in words.iter().enumerate() {
        let (i, j) = (k as u32 % rows, k as u32 / rows);
        if i < array.lld() && j < array.cols() {
            array.set(i, j, *word);
        }
    }
    Some(array)
}

/// The words of the first columns of an array of a rank, as one list by columns: None where there is no such array.
pub fn words_of(alloc: Global, nodes: &[RankMem], rank: usize, array: u32) -> Option<Vec<i32>> {
    let found = nodes.get(rank)?.array(array)?;
    let mut words = Vec::new(alloc);
    for j in 0..found.cols() {
        words.extend_from_slice(found.column(j)).ok()?;
    }
    Some(words)
}
