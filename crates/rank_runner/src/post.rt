//! One rank's post: its memory, the rest of its own operations, and its desk.
ghost use Rattle.std.specs.Prelude.{◌≡◌, ℕ, ◌<◌, Some, IfSome, IfNone, true, [], length, slice_get};
ghost use Rattle.machine.specs.declared.kind.Kind.TheVariants.{Send};
ghost use Rattle.rank_runner.specs.Posts.{node_after, desk_after, Agrees};
ghost use Rattle.rank_runner.specs.Tasks.{HasBuffer, IsPacked, todo};
ghost use Rattle.rank_runner.specs.Stands.{IsReady, fate};

use crate::gate::Gate;
use mail_room::Desk;
use msg_core::{Kind, Node, Step};
use std::sync::Wait;

/// An operation by its place in the plan, with the buffer of its message where it sends one.
#[derive(Drop)]
pub struct Task {
    pub place: u32,
    pub buffer: Vec<i32>,
}

/// The rest of the operations stand in `tasks`, the next one last. The one in `held` was begun: its gate was called, and its message is packed.
#[derive(Drop)]
pub struct Post<N: Node> {
    pub rank: u32,
    pub done: u32,
    pub node: N,
    pub tasks: Vec<Task>,
    pub held: Option<Task>,
    pub desk: Desk,
}

// The message of a send, into its buffer.
fn emit_into<N: Node>(node: &N, op: &N::Op, out: &mut Vec<i32>)
    requires can { N.can_do node.now op.now }
    requires kind { (to : ℕ) × (N.Op.kind_of op.now ≡ Send to (length out.old.items)) }
    ensures { out.new.items ≡ N.message node.now op.now }
{
    node.emit(op, out.as_mut_slice());
}

// Packs the message of a send.
fn pack<N: Node>(node: &N, op: &N::Op, buffer: &mut Vec<i32>)
    requires can { N.can_do node.now op.now }
    requires buffer { HasBuffer (N.Op.kind_of op.now) buffer.old.items }
    ensures { IsPacked N.Op.Step N.Node (N.Op.kind_of op.now) node.now op.now buffer.new.items }
{
    if let Kind::Send { to: _, len: _ } = op.kind() {
        emit_into(node, op, buffer);
    }
}

// The task with its message packed.
fn begun<N: Node>(node: &N, op: &N::Op, task: Task) -> Task
    requires can { N.can_do node.now op.now }
    requires buffer { HasBuffer (N.Op.kind_of op.now) task.buffer.items }
    ensures place { result.place ≡ task.place }
    ensures packed { IsPacked N.Op.Step N.Node (N.Op.kind_of op.now) node.now op.now result.buffer.items }
{
    let Task { place, mut buffer } = task;
    pack(node, op, &mut buffer);
    Task { place, buffer }
}

// The rank and the operation at a place.
fn op_at<Op>(steps: &[(u32, Op)], place: u32) -> (u32, &Op)
    requires { place < length steps.now }
    ensures { slice_get steps.now place ≡ Some (result.0, result.1.now) }
{
    let step = &steps[place as usize];
    (step.0, &step.1)
}

// Holds the next operation, if there is one and none is held.
fn pick_up<N: Node, G: Gate>(gate: &G, steps: &[(u32, N::Op)], post: &mut Post<N>)
    requires { IsReady N.Op.Step N.Node steps.now post.old }
    ensures ready { IsReady N.Op.Step N.Node steps.now post.new }
    ensures fate { fate N.Op.Step N.Node steps.now post.new ≡ fate N.Op.Step N.Node steps.now post.old }
{
    if post.held.is_some() {
        return;
    }
    if let Some(task) = post.tasks.pop() {
        gate.before(post.rank, post.done);
        post.held = Some(begun(&post.node, op_at(steps, task.place).1, task));
    }
}

// Does the operation, or hands its buffer back where the queue is full or empty.
fn try_op<N: Node, R: Wait>(
    rt: &R,
    node: &mut N,
    desk: &mut Desk,
    op: &N::Op,
    words: Vec<i32>,
) -> Option<Vec<i32>>
    requires can { N.can_do node.old op.now }
    requires agrees { Agrees N.Op.Step N.Node (N.Op.kind_of op.now) node.old op.now desk.old }
    requires packed { IsPacked N.Op.Step N.Node (N.Op.kind_of op.now) node.old op.now words.items }
    ensures node { IfNone result (node.new ≡ node_after N.Op.Step N.Node (N.Op.kind_of op.now) node.old op.now desk.old) }
    ensures desk { IfNone result (desk.new ≡ desk_after N.Op.Step N.Node (N.Op.kind_of op.now) desk.old) }
    ensures back { IfSome result (λ ws. IsPacked N.Op.Step N.Node (N.Op.kind_of op.now) node.old op.now ws.items × (node.new ≡ node.old) × (desk.new ≡ desk.old)) }
{
    match op.kind() {
        Kind::Send { to, len: _ } => match desk.put(rt, to, words) {
            Ok(()) => None,
            Err(back) => Some(back),
        },
        Kind::Recv { from, len: _ } => match desk.take(rt, from) {
            Some(got) => {
                node.absorb(op, got.as_slice());
                None
            }
            None => Some(words),
        },
        Kind::Local => {
            node.act(op);
            None
        }
    }
}

// Tries the operation that is held, and says whether it was done.
fn try_held<N: Node, R: Wait>(rt: &R, steps: &[(u32, N::Op)], post: &mut Post<N>) -> bool
    requires { IsReady N.Op.Step N.Node steps.now post.old }
    ensures ready { IsReady N.Op.Step N.Node steps.now post.new }
    ensures fate { fate N.Op.Step N.Node steps.now post.new ≡ fate N.Op.Step N.Node steps.now post.old }
{
    let Some(task) = post.held.take() else {
        return false;
    };
    let Task { place, buffer } = task;
    match try_op(
        rt,
        &mut post.node,
        &mut post.desk,
        op_at(steps, place).1,
        buffer,
    ) {
        None => {
            post.done += 1;
            true
        }
        Some(buffer) => {
            post.held = Some(Task { place, buffer });
            false
        }
    }
}

/// Tries the next operation, if there is one, and says whether it was done.
pub fn try_next<N: Node, G: Gate, R: Wait>(
    rt: &R,
    gate: &G,
    steps: &[(u32, N::Op)],
    post: &mut Post<N>,
) -> bool
    requires { IsReady N.Op.Step N.Node steps.now post.old }
    ensures ready { IsReady N.Op.Step N.Node steps.now post.new }
    ensures fate { fate N.Op.Step N.Node steps.now post.new ≡ fate N.Op.Step N.Node steps.now post.old }
{
    pick_up(gate, steps, post);
    try_held(rt, steps, post)
}

/// Whether no operation is left.
pub fn is_over<N: Node>(post: &Post<N>) -> bool
    ensures { result ≡ true → todo post.now.held post.now.tasks.items ≡ [] }
{
    post.held.is_none() && post.tasks.is_empty()
}
