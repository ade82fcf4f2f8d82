//! A pair of ranks with two messages.
ghost use Rattle.std.specs.Prelude.{◌≡◌, IfOk, Some, pos, [], ◌∷◌};
ghost use Rattle.mail_room.specs.Mail.{side};
ghost use Rattle.mail_room.specs.Desks.{side_at};
ghost use Rattle.thread_tests.specs.Pairs.{two_messages};

use mail_room::{Desk, Letters, Room};
use std::alloc::{AllocError, Global};
use std::sync::Wait;

/// From rank 0 to rank 1: a message of the word 7, and one of the word 8.
pub struct TwoMessages;

impl Letters for TwoMessages {
    ghost use Rattle.thread_tests.specs.Pairs.{two_messages};

    ghost letters = { λ from to. two_messages };
}

// The desks of both ranks, with a queue that holds one message.
fn open_desks<R: Sync>(rt: &R, alloc: Global) -> Result<(Desk, Desk), AllocError>
    ensures sender { IfOk result (λ d. side_at d.0.outs 1 ≡ Some (side two_messages 1 0)) }
    ensures receiver { IfOk result (λ d. side_at d.1.ins 0 ≡ Some (side two_messages 1 0)) }
{
    let room = Room::new::<TwoMessages, R>(rt, alloc, 2, [(0, 1, 1)].as_slice())?;
    let mut desks = room.desks()?;
    let Some(second) = desks.pop() else {
        unreachable!()
    };
    let Some(first) = desks.pop() else {
        unreachable!()
    };
    Ok((first, second))
}

/// What the four steps answer: whether 7 was put, and then those of putting 8 and of two takes.
#[derive(Drop)]
pub struct Answers {
    pub put: bool,
    pub put_full: Result<(), Vec<i32>>,
    pub take: Option<Vec<i32>>,
    pub take_empty: Option<Vec<i32>>,
}

// Puts the first message, and tries to put the second.
fn put_two<R: Wait>(
    rt: &R,
    desk: &mut Desk,
    seven: Vec<i32>,
    eight: Vec<i32>,
) -> (bool, Result<(), Vec<i32>>)
    requires desk { side_at desk.old.outs 1 ≡ Some (side two_messages 1 0) }
    requires seven { seven.items ≡ pos 7 ∷ [] }
    requires eight { eight.items ≡ pos 8 ∷ [] }
{
    match desk.put(rt, 1, seven) {
        Ok(()) => (true, desk.put(rt, 1, eight)),
        Err(_) => (false, Ok(())),
    }
}

// Takes twice.
fn take_two<R: Wait>(rt: &R, desk: &mut Desk) -> (Option<Vec<i32>>, Option<Vec<i32>>)
    requires { side_at desk.old.ins 0 ≡ Some (side two_messages 1 0) }
{
    match desk.take(rt, 0) {
        Some(words) => (Some(words), desk.take(rt, 0)),
        None => (None, None),
    }
}

/// Puts the first message and tries to put the second into a queue that holds one, and takes twice.
pub fn four_steps<R: Wait + Sync>(rt: &R, alloc: Global) -> Result<Answers, AllocError> {
    let (mut sender, mut receiver) = open_desks(rt, alloc)?;
    let seven = Vec::from_array(alloc, [7])?;
    let eight = Vec::from_array(alloc, [8])?;
    let (put, put_full) = put_two(rt, &mut sender, seven, eight);
    let (take, take_empty) = take_two(rt, &mut receiver);
    Ok(Answers {
        put,
        put_full,
        take,
        take_empty,
    })
}
