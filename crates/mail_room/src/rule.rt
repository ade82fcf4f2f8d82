//! The rule of a pair's queue, and the kinds of its steps.
use crate::seen::Seen;
use crossbeam_queue::protocol::{Lesson, Outcome, Protocol, Split};
use crossbeam_queue::{Pass, RuledArrayQueue};
use std::marker::{Brand, PhantomData};

/// The messages of each ordered pair of ranks, in their order. They are named for contracts alone: nothing of them is kept.
pub trait Letters {
    ghost use Rattle.std.specs.Prelude.{ℕ, ℤ, List};

    ghost letters: { ℕ → ℕ → List (List ℤ) };
}

impl Letters for Brand {
    ghost use Rattle.std.specs.Prelude.{[]};

    ghost letters = { λ from to. [] };
}

/// One pair's messages and the capacity of its queue. Each call that makes a queue picks them.
pub trait PairName {
    ghost use Rattle.std.specs.Prelude.{ℕ, ℤ, List};

    ghost capacity: { ℕ };

    ghost letters: { List (List ℤ) };
}

impl PairName for Brand {
    ghost use Rattle.std.specs.Prelude.{[]};

    ghost capacity = { 0 };

    ghost letters = { [] };
}

/// What the queue holds is what was put and not taken: the pair's messages from `taken` to `put`.
pub struct InOrder;

impl Protocol<Vec<i32>, Seen> for InOrder {
    ghost use Rattle.mail_room.specs.Mail.{fresh, Delivers};

    ghost holds = { Delivers };

    ghost first = { fresh };
}

/// The maker's pass becomes the sender's, and a second one the receiver's.
pub struct Roles<K> {
    pair: PhantomData<K>,
}

impl<K: PairName> Split<Seen> for Roles<K> {
    ghost use Rattle.mail_room.specs.Mail.{seen};
    ghost use Rattle.mail_room.specs.declared.seen.Role.TheVariants.{Sender, Receiver};

    ghost left = { λ v. seen Sender K.letters K.capacity 0 };

    ghost right = { λ v. seen Receiver K.letters K.capacity 0 };
}

/// A push of the sender's next message. A full queue tells that as many were put as it holds.
pub struct Puts;

impl Outcome<Vec<i32>, Seen> for Puts {
    ghost use Rattle.std.specs.Prelude.{◌≡◌};
    ghost use Rattle.mail_room.specs.Mail.{has_done};

    ghost then = { λ v x w. w ≡ has_done v };
}

impl Lesson<Vec<i32>, Seen> for Puts {
    ghost use Rattle.std.specs.Prelude.{◌≤◌, length};

    ghost fact = { λ v items. length items ≤ v.side.done };
}

/// A pop of the receiver's next message.
pub struct Takes;

impl Outcome<Vec<i32>, Seen> for Takes {
    ghost use Rattle.std.specs.Prelude.{◌≡◌};
    ghost use Rattle.mail_room.specs.Mail.{has_done, IsNext};

    ghost then = { λ v x w. IsNext v.side x.items × (w ≡ has_done v) };
}

impl Lesson<Vec<i32>, Seen> for Takes {
    ghost fact = { λ v items. Unit {0} };
}

pub type Queue = RuledArrayQueue<Vec<i32>, Seen, InOrder>;

pub type SidePass = Pass<Vec<i32>, Seen>;
