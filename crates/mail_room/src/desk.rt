//! One rank's ends of the queues of its pairs.
ghost use Rattle.std.specs.Prelude.{◌≡◌, ◌≤◌, OnOk, OnErr, IfErr, IfSome, IfNone, IsSomeAnd, IsSome, IfOk, ◌<◌, ℕ, length, replicate};
ghost use Rattle.mail_room.specs.Mail.{IsNext};
ghost use Rattle.mail_room.specs.Desks.{side_at, after_put, after_take, capacity_of};
ghost use Rattle.mail_room.specs.Making.{vacant, with_out, with_in, with_pair, IsSquare};

use crate::ends::{InEnd, OutEnd, ends_of};
use crate::rule::Letters;
use std::alloc::{AllocError, Global};
use std::marker::Model;
use std::sync::Wait;

/// One rank's ends of the queues of its pairs. Contracts see, by the other rank's number, each pair's messages, the capacity of its queue, and how many of them this rank has put or taken.
#[derive(Drop)]
pub struct Desk {
    outs: Vec<Option<OutEnd>>,
    ins: Vec<Option<InEnd>>,
}

impl Model for Desk {
    ghost use Rattle.mail_room.specs.Desks.{DeskView};

    ghost Value = { DeskView };

    ghost view = { λ d. record { outs = d.outs.items; ins = d.ins.items } };
}

impl Desk {
    /// Puts the pair's next message, in one step. Err hands the words back, and comes only where the queue was full at that step: then as many messages were put as it holds. It takes no memory.
    pub fn put<R: Wait>(&mut self, rt: &R, to: u32, words: Vec<i32>) -> Result<(), Vec<i32>>
        requires { IsSomeAnd (side_at self.old.outs to) (λ s. IsNext s words.items) }
        ensures ok { OnOk result (self.new ≡ after_put self.old to) }
        ensures err { IfErr result (λ back. (back ≡ words) × (self.new ≡ self.old)) }
        ensures full { OnErr result (IsSomeAnd (side_at self.old.outs to) (λ s. s.capacity ≤ s.done)) }
    {
        match &mut self.outs[to as usize] {
            Some(end) => end.put(rt, words),
            None => unreachable!(),
        }
    }

    /// Takes the pair's next message, in one step. None comes only where the queue was empty at that step. It takes no memory.
    pub fn take<R: Wait>(&mut self, rt: &R, from: u32) -> Option<Vec<i32>>
        requires { IsSome (side_at self.old.ins from) }
        ensures some { IfSome result (λ words. IsSomeAnd (side_at self.old.ins from)
            (λ s. IsNext s words.items) × (self.new ≡ after_take self.old from)) }
        ensures none { IfNone result (self.new ≡ self.old) }
    {
        match &mut self.ins[from as usize] {
            Some(end) => end.take(rt),
            None => unreachable!(),
        }
    }

    /// The capacity of the queue to that rank: None exactly where there is none.
    pub fn capacity_to(&self, to: u32) -> Option<u32>
        ensures { result ≡ capacity_of (side_at self.now.outs to) }
    {
        if to as usize >= self.outs.len() {
            return None;
        }
        match &self.outs[to as usize] {
            Some(end) => Some(end.capacity()),
            None => None,
        }
    }

    pub(crate) fn new(alloc: Global, ranks: u32) -> Result<Desk, AllocError>
        ensures { IfOk result (λ d. d ≡ vacant ranks) }
    {
        let outs = no_outs(alloc, ranks)?;
        let ins = no_ins(alloc, ranks)?;
        Ok(Desk { outs, ins })
    }

    fn add_out(&mut self, to: u32, end: OutEnd)
        requires { to < length self.old.outs }
        ensures { self.new ≡ with_out self.old to end }
    {
        self.outs[to as usize] = Some(end);
    }

    fn add_in(&mut self, from: u32, end: InEnd)
        requires { from < length self.old.ins }
        ensures { self.new ≡ with_in self.old from end }
    {
        self.ins[from as usize] = Some(end);
    }
}

fn no_outs(alloc: Global, ranks: u32) -> Result<Vec<Option<OutEnd>>, AllocError>
    ensures { IfOk result (λ v. v.items ≡ replicate ranks None) }
{
    let mut ends = Vec::with_capacity(alloc, ranks as usize)?;
    for _ in 0..ranks {
        ends.push(None)?;
    }
    Ok(ends)
}

fn no_ins(alloc: Global, ranks: u32) -> Result<Vec<Option<InEnd>>, AllocError>
    ensures { IfOk result (λ v. v.items ≡ replicate ranks None) }
{
    let mut ends = Vec::with_capacity(alloc, ranks as usize)?;
    for _ in 0..ranks {
        ends.push(None)?;
    }
    Ok(ends)
}

// A queue for one pair, and its two ends on the desks.
fn add_pair_at<V: Letters>(
    alloc: Global,
    ranks: u32,
    desks: &mut [Desk],
    from: u32,
    to: u32,
    capacity: u32,
) -> Result<(), AllocError>
    requires pair { (from < ranks) × (to < ranks) × (0 < capacity) }
    requires square { IsSquare ranks desks.old }
    ensures { OnOk result (desks.new ≡ with_pair V.letters desks.old (from, to, capacity)) }
{
    let (sender, receiver) = ends_of::<V>(alloc, from, to, capacity)?;
    let desk = &mut desks[from as usize];
    desk.add_out(to, sender);
    let desk = &mut desks[to as usize];
    desk.add_in(from, receiver);
    Ok(())
}

pub(crate) fn add_pair<V: Letters>(
    alloc: Global,
    ranks: u32,
    desks: &mut Vec<Desk>,
    from: u32,
    to: u32,
    capacity: u32,
) -> Result<(), AllocError>
    requires pair { (from < ranks) × (to < ranks) × (0 < capacity) }
    requires square { IsSquare ranks desks.old.items }
    ensures { OnOk result (desks.new.items ≡ with_pair V.letters desks.old.items (from, to, capacity)) }
{
    add_pair_at::<V>(alloc, ranks, desks.as_mut_slice(), from, to, capacity)
}
