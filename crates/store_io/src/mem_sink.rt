//! A sink in memory, in room that is taken at the start.
ghost use Rattle.std.specs.Prelude.{◌≡◌, ◌≤◌, ◌<◌, ◌+◌, ◌-◌, ◌++◌, ◌↔◌, [], ℕ, length, take, min, true, IsTrue, IsErr, IfOk, OnOk, OnErr};
ghost use Rattle.store_io.specs.Outside.{GivesCause, GrewByFront, OneMore};
ghost use Rattle.store_io.specs.MemState.{RefusesWrite};

use crate::heap::extend;
use crate::{Sink, SinkErr};
use std::alloc::{AllocError, Global};
use std::marker::Model;

/// A sink of fixed room, which tells what it took.
///
/// It counts a fault only for a write that was to fail, or where a piece that isn't empty finds no room left. The count
/// stops at its last value.
#[derive(Drop)]
pub struct MemSink {
    bytes: Vec<u8>,
    room: usize,
    faults: u64,
    // the write that fails, counted from now on; 0 where none does
    due: u32,
}

impl Model for MemSink {
    ghost use Rattle.store_io.specs.MemState.{SinkState, sink_code};

    ghost Value = { SinkState };

    ghost coded = { sink_code };

    ghost use Rattle.store_io.specs.MemView.{sink_view, IsSink};

    ghost view = { sink_view };

    ghost invariant = { IsSink };
}

impl MemSink {
    /// An empty sink with room for so many bytes.
    pub fn new(alloc: Global, room: usize) -> Result<MemSink, AllocError>
        ensures told { IfOk result (λ s. s.poured.told ≡ true) }
        ensures empty { IfOk result (λ s. s.poured.bytes ≡ []) }
        ensures no_fault { IfOk result (λ s. s.poured.faults ≡ 0) }
        ensures room { IfOk result (λ s. s.room ≡ room) }
        ensures none_due { IfOk result (λ s. s.due ≡ 0) }
    {
        Ok(MemSink {
            bytes: Vec::with_capacity(alloc, room)?,
            room,
            faults: 0,
            due: 0,
        })
    }

    /// All bytes that were taken, in order.
    pub fn bytes(&self) -> &[u8]
        ensures { result.now ≡ self.now.poured.bytes }
    {
        &self.bytes
    }

    /// Lets the nth write, counted from 1 and from now on, fail. It takes the place of an earlier `fail`; 0 lets none fail.
    pub fn fail(&mut self, nth: u32)
        ensures { self.new ≡ record self.old { due = nth } }
    {
        self.due = nth;
    }

    /// How many writes failed.
    pub fn faults(&self) -> u64
        ensures { result ≡ self.now.poured.faults }
    {
        self.faults
    }
}

impl Sink for MemSink {
    ghost state = { λ s. s.poured };

    /// Takes as much of the piece as fits. It fails, and takes nothing, exactly where this write was to fail, or where
    /// the piece isn't empty and no room is left.
    fn write(&mut self, piece: &[u8]) -> Result<usize, SinkErr>
        ensures fails { IsErr result ↔ RefusesWrite self.old piece.now }
        ensures fits { IfOk result (λ k. k ≡ min (length piece.now) self.old.room) }
        ensures room { IfOk result (λ k. self.new.room + k ≡ self.old.room) }
        ensures no_room { OnErr result (self.new.room ≡ self.old.room) }
        ensures nothing { OnErr result (self.new.poured.bytes ≡ self.old.poured.bytes) }
        ensures due { self.new.due ≡ self.old.due - 1 }
        ensures faults { OnErr result (OneMore self.old.poured.faults self.new.poured.faults) }
        ensures bound { IfOk result (λ k. k ≤ length piece.now) }
        ensures progress { IfOk result (λ k. 0 < length piece.now → 0 < k) }
        ensures written { IsTrue self.old.poured.told →
            IfOk result (λ k. self.new.poured.bytes ≡ self.old.poured.bytes ++ take k piece.now) }
        ensures failed { IsTrue self.old.poured.told →
            OnErr result (GrewByFront self.old.poured self.new.poured piece.now) }
        ensures same { self.new.poured.told ≡ self.old.poured.told }
        ensures cause { GivesCause self.old.poured self.new.poured result }
    {
        let is_due = self.due == 1;
        self.due = self.due.saturating_sub(1);
        let count = piece.len().min(self.room);
        if is_due || (count == 0 && !piece.is_empty()) {
            self.faults = self.faults.saturating_add(1);
            return Err(SinkErr::Failed);
        }
        extend(&mut self.bytes, &piece[..count]);
        self.room -= count;
        Ok(count)
    }
}
