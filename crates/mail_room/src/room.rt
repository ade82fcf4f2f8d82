//! The queues of all pairs.
ghost use Rattle.std.specs.Prelude.{◌≡◌, ℕ, length, replicate, IfOk};
ghost use Rattle.mail_room.specs.Desks.{AreRows, AreNewDesks, capacities};
ghost use Rattle.mail_room.specs.Making.{vacant};

use crate::desk::{Desk, add_pair};
use crate::rule::Letters;
use std::alloc::{AllocError, Global};
use std::marker::Model;

/// A ruled queue for each pair of some. Contracts see the desks of the ranks, by rank.
#[derive(Drop)]
pub struct Room {
    desks: Vec<Desk>,
}

impl Model for Room {
    ghost use Rattle.std.specs.Prelude.{List};
    ghost use Rattle.mail_room.specs.Desks.{DeskView};

    ghost Value = { List DeskView };

    ghost view = { λ r. r.desks.items };
}

impl Room {
    /// One queue for each row of from, to and capacity, for the messages that `V` names. The ranks are below `ranks`, capacities are at least 1, and the pairs differ (of two rows of one pair the later one counts).
    pub fn new<V: Letters, R: Sync>(
        _rt: &R,
        alloc: Global,
        ranks: u32,
        caps: &[(u32, u32, u32)],
    ) -> Result<Room, AllocError>
        requires { AreRows ranks caps.now }
        ensures ranks { IfOk result (λ r. length r ≡ ranks) }
        ensures desks { IfOk result (AreNewDesks V.letters (capacities caps.now)) }
    {
        let mut desks = vacant_desks(alloc, ranks)?;
        for (from, to, capacity) in caps {
            add_pair::<V>(alloc, ranks, &mut desks, *from, *to, *capacity)?;
        }
        Ok(Room { desks })
    }

    /// The desks of the ranks, by rank. The refused room is dropped.
    pub fn desks(self) -> Result<Vec<Desk>, AllocError>
        ensures { IfOk result (λ v. v.items ≡ self) }
    {
        let Room { desks } = self;
        Ok(desks)
    }
}

fn vacant_desks(alloc: Global, ranks: u32) -> Result<Vec<Desk>, AllocError>
    ensures { IfOk result (λ v. v.items ≡ replicate ranks (vacant ranks)) }
{
    let mut desks = Vec::with_capacity(alloc, ranks as usize)?;
    for _ in 0..ranks {
        desks.push(Desk::new(alloc, ranks)?)?;
    }
    Ok(desks)
}
