//! Bytes in memory that is taken at the start.
ghost use Rattle.std.specs.Prelude.{◌≡◌, ◌≤◌, ◌+◌, ◌-◌, ◌++◌, [], length, vec_len, vec_capacity, IfOk, false, true};
ghost use Rattle.store_io.specs.Heap.{part_of, IsPart, IsLast, Keeps};

use std::alloc::{AllocError, Global};
use std::marker::Model;

/// A part of the bytes of a heap: of those aside, or of the others.
#[derive(Clone, Copy)]
pub(crate) struct Part {
    pub aside: bool,
    pub from: usize,
    pub to: usize,
}

/// Adds to bytes for which there is room.
pub(crate) fn extend(bytes: &mut Vec<u8>, piece: &[u8])
    requires { vec_len bytes.old + length piece.now ≤ vec_capacity bytes.old }
    ensures items { bytes.new.items ≡ bytes.old.items ++ piece.now }
    ensures len { vec_len bytes.new ≡ vec_len bytes.old + length piece.now }
    ensures capacity { vec_capacity bytes.old ≤ vec_capacity bytes.new }
{
    bytes.extend_from_slice(piece).unwrap();
}

/// Two runs of bytes that only grow. While the last bytes of one wait for more, others go aside.
#[derive(Drop)]
pub(crate) struct Heap {
    main: Vec<u8>,
    aside: Vec<u8>,
    room: usize,
}

impl Model for Heap {
    ghost use Rattle.std.specs.Prelude.{◌≤◌, ◌+◌, vec_len, vec_capacity};
    ghost use Rattle.store_io.specs.Heap.{Bytes, bytes_code};

    ghost Value = { Bytes };

    ghost coded = { bytes_code };

    ghost view = { λ h. record { main = h.main.items; aside = h.aside.items; room = h.room } };

    ghost invariant = { λ h. (vec_len h.main + h.room ≤ vec_capacity h.main) × (vec_len h.aside + h.room ≤ vec_capacity h.aside) };
}

impl Heap {
    /// No bytes, with room for so many.
    pub fn new(alloc: Global, room: usize) -> Result<Heap, AllocError>
        ensures { IfOk result (λ h. h ≡ record { main = []; aside = []; room = room }) }
    {
        let main = Vec::with_capacity(alloc, room)?;
        let aside = Vec::with_capacity(alloc, room)?;
        Ok(Heap { main, aside, room })
    }

    pub fn room(&self) -> usize
        ensures { result ≡ self.now.room }
    {
        self.room
    }

    /// The bytes of a part.
    pub fn part(&self, part: Part) -> &[u8]
        requires { IsPart self.now part }
        ensures { result.now ≡ part_of self.now part }
    {
        if part.aside {
            &self.aside[part.from..part.to]
        } else {
            &self.main[part.from..part.to]
        }
    }

    /// Adds bytes aside; where they stand.
    #[tactic(auto, using(crate::proofs::HeapLaws::keeps_aside, crate::proofs::HeapLaws::grown))]
    pub fn lay(&mut self, piece: &[u8]) -> Part
        requires { length piece.now ≤ self.old.room }
        ensures part { IsPart self.new result }
        ensures holds { part_of self.new result ≡ piece.now }
        ensures keeps { Keeps self.old self.new }
        ensures main { self.new.main ≡ self.old.main }
        ensures room { self.new.room ≡ self.old.room - length piece.now }
    {
        let from = self.aside.len();
        extend(&mut self.aside, piece);
        self.room -= piece.len();
        Part {
            aside: true,
            from,
            to: from + piece.len(),
        }
    }

    /// Lets the last part grow; the part from then on.
    #[tactic(auto, using(crate::proofs::HeapLaws::keeps_main, crate::proofs::HeapLaws::grown))]
    pub fn grow(&mut self, part: Part, piece: &[u8]) -> Part
        requires part { IsPart self.old part }
        requires last { IsLast self.old part }
        requires room { length piece.now ≤ self.old.room }
        ensures part { IsPart self.new result }
        ensures holds { part_of self.new result ≡ part_of self.old part ++ piece.now }
        ensures keeps { Keeps self.old self.new }
        ensures last { IsLast self.new result }
        ensures room { self.new.room ≡ self.old.room - length piece.now }
    {
        extend(&mut self.main, piece);
        self.room -= piece.len();
        Part {
            aside: false,
            from: part.from,
            to: part.to + piece.len(),
        }
    }

    /// Adds bytes at the end; where they stand.
    pub fn add(&mut self, piece: &[u8]) -> Part
        requires { length piece.now ≤ self.old.room }
        ensures part { IsPart self.new result }
        ensures holds { part_of self.new result ≡ piece.now }
        ensures keeps { Keeps self.old self.new }
        ensures last { IsLast self.new result }
        ensures room { self.new.room ≡ self.old.room - length piece.now }
    {
        let end = self.end();
        self.grow(end, piece)
    }

    fn end(&self) -> Part
        ensures part { IsPart self.now result }
        ensures none { part_of self.now result ≡ [] }
        ensures last { IsLast self.now result }
    {
        let end = self.main.len();
        Part {
            aside: false,
            from: end,
            to: end,
        }
    }
}
