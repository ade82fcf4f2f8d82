//! The two ends of a pair's queue.
ghost use Rattle.std.specs.Prelude.{◌≡◌, ◌≤◌, ◌<◌, IfOk, OnOk, OnErr, IfErr, IfSome, IfNone};
ghost use Rattle.crossbeam_queue.specs.Passes.{view, IsPassOf, ruled_capacity};
ghost use Rattle.mail_room.specs.Mail.{seen, side, has_done, one_more, IsNext};
ghost use Rattle.mail_room.specs.declared.seen.Role.TheVariants.{Sender, Receiver};

use crate::rule::{Letters, PairName, Puts, Queue, Roles, SidePass, Takes};
use std::alloc::{AllocError, Global};
use std::marker::{Brand, Model};
use std::sync::{Arc, Wait};

/// The sender's end. Contracts see its side.
#[derive(Drop)]
pub struct OutEnd {
    queue: Arc<Queue, Global>,
    pass: SidePass,
    capacity: u32,
}

impl Model for OutEnd {
    ghost use Rattle.std.specs.Prelude.{◌≡◌};
    ghost use Rattle.std.specs.Arc.{arc_value};
    ghost use Rattle.crossbeam_queue.specs.Passes.{view as knows, IsPassOf, ruled_capacity};
    ghost use Rattle.mail_room.specs.declared.seen.Side.{Side};
    ghost use Rattle.mail_room.specs.declared.seen.Role.TheVariants.{Sender};

    ghost Value = { Side };

    ghost view = { λ e. (knows e.pass).side };

    ghost invariant = { λ e. IsPassOf (arc_value e.queue) e.pass × ((knows e.pass).role ≡ Sender) × ((knows e.pass).side.capacity ≡ ruled_capacity (arc_value e.queue)) × (e.capacity ≡ (knows e.pass).side.capacity) };
}

/// The receiver's end. Contracts see its side.
#[derive(Drop)]
pub struct InEnd {
    queue: Arc<Queue, Global>,
    pass: SidePass,
}

impl Model for InEnd {
    ghost use Rattle.std.specs.Prelude.{◌≡◌};
    ghost use Rattle.std.specs.Arc.{arc_value};
    ghost use Rattle.crossbeam_queue.specs.Passes.{view as knows, IsPassOf};
    ghost use Rattle.mail_room.specs.declared.seen.Side.{Side};
    ghost use Rattle.mail_room.specs.declared.seen.Role.TheVariants.{Receiver};

    ghost Value = { Side };

    ghost view = { λ e. (knows e.pass).side };

    ghost invariant = { λ e. IsPassOf (arc_value e.queue) e.pass × ((knows e.pass).role ≡ Receiver) };
}

// A queue of one pair, with its two passes.
fn new_pair<K: PairName>(
    alloc: Global,
    capacity: usize,
) -> Result<(Queue, SidePass, SidePass), AllocError>
    requires some { 0 < capacity }
    requires capacity { capacity ≡ K.capacity }
    ensures queue { IfOk result (λ r. (ruled_capacity r.0 ≡ capacity) × IsPassOf r.0 r.1 ×
        IsPassOf r.0 r.2) }
    ensures sender { IfOk result (λ r. view r.1 ≡ seen Sender K.letters K.capacity 0) }
    ensures receiver { IfOk result (λ r. view r.2 ≡ seen Receiver K.letters K.capacity 0) }
{
    let (queue, mut sender) = Queue::ruled(alloc, capacity)?;
    let receiver = queue.another::<Roles<K>>(&mut sender);
    Ok((queue, sender, receiver))
}

// One step of the sender.
fn put_at<R: Wait>(
    rt: &R,
    queue: &Queue,
    pass: &mut SidePass,
    words: Vec<i32>,
) -> Result<(), Vec<i32>>
    requires queue { IsPassOf queue.now pass.old }
    requires sender { (view pass.old).role ≡ Sender }
    requires capacity { (view pass.old).side.capacity ≡ ruled_capacity queue.now }
    requires next { IsNext (view pass.old).side words.items }
    ensures queue { IsPassOf queue.now pass.new }
    ensures ok { OnOk result (view pass.new ≡ has_done (view pass.old)) }
    ensures err { IfErr result (λ back. (back ≡ words) × (view pass.new ≡ view pass.old)) }
    ensures full { OnErr result ((view pass.old).side.capacity ≤ (view pass.old).side.done) }
{
    queue.push_as::<Puts, R>(rt, pass, words)
}

// One step of the receiver.
fn take_at<R: Wait>(rt: &R, queue: &Queue, pass: &mut SidePass) -> Option<Vec<i32>>
    requires queue { IsPassOf queue.now pass.old }
    requires receiver { (view pass.old).role ≡ Receiver }
    ensures queue { IsPassOf queue.now pass.new }
    ensures some { IfSome result (λ words. IsNext (view pass.old).side words.items ×
        (view pass.new ≡ has_done (view pass.old))) }
    ensures none { IfNone result (view pass.new ≡ view pass.old) }
{
    queue.pop_as::<Takes, R>(rt, pass)
}

impl OutEnd {
    pub fn put<R: Wait>(&mut self, rt: &R, words: Vec<i32>) -> Result<(), Vec<i32>>
        requires { IsNext self.old words.items }
        ensures ok { OnOk result (self.new ≡ one_more self.old) }
        ensures err { IfErr result (λ back. (back ≡ words) × (self.new ≡ self.old)) }
        ensures full { OnErr result (self.old.capacity ≤ self.old.done) }
    {
        put_at(rt, &self.queue, &mut self.pass, words)
    }

    pub fn capacity(&self) -> u32
        ensures { result ≡ self.now.capacity }
    {
        self.capacity
    }
}

impl InEnd {
    pub fn take<R: Wait>(&mut self, rt: &R) -> Option<Vec<i32>>
        ensures some { IfSome result (λ words. IsNext self.old words.items × (self.new ≡ one_more self.old)) }
        ensures none { IfNone result (self.new ≡ self.old) }
    {
        take_at(rt, &self.queue, &mut self.pass)
    }
}

// The ends of a new pair.
fn new_ends<K: PairName>(
    alloc: Global,
    _from: u32,
    _to: u32,
    capacity: u32,
) -> Result<(OutEnd, InEnd), AllocError>
    requires some { 0 < capacity }
    requires capacity { capacity ≡ K.capacity }
    ensures sender { IfOk result (λ r. r.0 ≡ side K.letters capacity 0) }
    ensures receiver { IfOk result (λ r. r.1 ≡ side K.letters capacity 0) }
{
    let (queue, sender, receiver) = new_pair::<K>(alloc, capacity as usize)?;
    let queue = Arc::new(alloc, queue)?;
    let theirs = Arc::try_clone(&queue)?;
    Ok((
        OutEnd {
            queue,
            pass: sender,
            capacity,
        },
        InEnd {
            queue: theirs,
            pass: receiver,
        },
    ))
}

/// The ends of a new pair, at the start of the messages that V names.
pub fn ends_of<V: Letters>(
    alloc: Global,
    from: u32,
    to: u32,
    capacity: u32,
) -> Result<(OutEnd, InEnd), AllocError>
    requires { 0 < capacity }
    ensures sender { IfOk result (λ r. r.0 ≡ side (V.letters from to) capacity 0) }
    ensures receiver { IfOk result (λ r. r.1 ≡ side (V.letters from to) capacity 0) }
{
    new_ends::<Brand>(alloc, from, to, capacity)
}
