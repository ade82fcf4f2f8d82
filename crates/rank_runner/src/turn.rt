//! The turns of one worker: one operation of each of its ranks, and again, until none is left.
ghost use Rattle.std.specs.Prelude.{◌≡◌, All, map, true};
ghost use Rattle.rank_runner.specs.Stands.{IsReady, fate, outcome};

use crate::gate::Gate;
use crate::post::{Post, is_over, try_next};
use msg_core::Node;
use std::sync::Wait;
use std::thread;

/// Whether no operation is left, and whether one was done.
#[derive(Clone, Copy)]
struct Turn {
    over: bool,
    moved: bool,
}

// One post's part of a turn.
fn visit<N: Node, G: Gate, R: Wait>(
    rt: &R,
    gate: &G,
    steps: &[(u32, N::Op)],
    post: &mut Post<N>,
    turn: Turn,
) -> Turn
    requires { IsReady N.Op.Step N.Node steps.now post.old }
    ensures ready { IsReady N.Op.Step N.Node steps.now post.new }
    ensures fate { fate N.Op.Step N.Node steps.now post.new ≡ fate N.Op.Step N.Node steps.now post.old }
    ensures over { result.over ≡ true → (turn.over ≡ true) × (outcome post.new ≡ fate N.Op.Step N.Node steps.now post.new) }
{
    let moved = try_next(rt, gate, steps, post);
    let over = is_over(post);
    Turn {
        over: over && turn.over,
        moved: moved || turn.moved,
    }
}

// One operation of each post in turn; where its queue is full or empty it is passed over.
fn one_turn<N: Node, G: Gate, R: Wait>(
    rt: &R,
    gate: &G,
    steps: &[(u32, N::Op)],
    posts: &mut Vec<Post<N>>,
) -> Turn
    requires { All (IsReady N.Op.Step N.Node steps.now) posts.old.items }
    ensures ready { All (IsReady N.Op.Step N.Node steps.now) posts.new.items }
    ensures fates { map (fate N.Op.Step N.Node steps.now) posts.new.items ≡ map (fate N.Op.Step N.Node steps.now) posts.old.items }
    ensures over { result.over ≡ true → map outcome posts.new.items ≡ map (fate N.Op.Step N.Node steps.now) posts.new.items }
{
    let mut turn = Turn {
        over: true,
        moved: false,
    };
    for i in 0..posts.len() {
        let post = &mut posts[i];
        turn = visit(rt, gate, steps, post, turn);
    }
    turn
}

/// Turns until no operation is left. Where a whole turn did none it yields.
pub fn run_posts<N: Node, G: Gate, R: Wait>(
    rt: &R,
    gate: &G,
    steps: &[(u32, N::Op)],
    posts: &mut Vec<Post<N>>,
)
    requires { All (IsReady N.Op.Step N.Node steps.now) posts.old.items }
    ensures { map outcome posts.new.items ≡ map (fate N.Op.Step N.Node steps.now) posts.old.items }
{
    for _ in rt.forever() {
        let turn = one_turn(rt, gate, steps, posts);
        if turn.over {
            return;
        }
        if !turn.moved {
            thread::yield_now();
        }
    }
    unreachable!()
}
