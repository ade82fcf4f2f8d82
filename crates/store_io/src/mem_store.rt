//! A store of files in memory, in room that is taken at the start.
ghost use Rattle.std.specs.Prelude.{◌≡◌, ◌≤◌, ◌<◌, ◌+◌, ◌-◌, ◌++◌, ◌∷◌, [], ℕ, List, length, take, min, IsTrue, IsOk, IsErr, IsErrOf, IsNone, IfOk, OnOk, OnErr, Some, None, true, false, IfSome, ◌↔◌, ◌⊎◌};
ghost use Rattle.std.specs.Bool.{OnTrue, OnFalse};
ghost use Rattle.std.specs.FinMap.{get, insert, empty};
ghost use Rattle.store_io.specs.Outside.{SameStore, KeepsFiles, HasCause, WritesOn, WritesFront, OneMore, KeepsOutput, IsEither};
ghost use Rattle.store_io.specs.Fails.{falls_due, after_call};
ghost use Rattle.store_io.specs.MemState.{HasRoom, LacksRoom, Spends, SameRoom, CanFail, KeepsOpen, CountsOnce, input_name, output_name, closed_name};
ghost use Rattle.store_io.specs.declared.call_kind.CallKind.TheVariants.{OpenRead, Read, OpenWrite, Write, Close};

use crate::entries::{Entry, Input, newest};
use crate::fails::{FailEntry, MOST_FAILS};
use crate::heap::Heap;
use crate::{CallKind, Store, StoreErr};
use arrayvec::ArrayVec;
use std::alloc::{AllocError, Global};
use std::marker::Model;

/// Files in memory, which tell what they hold.
///
/// All its memory is taken at the start: `room` bytes for names and contents together, and entries for openings
/// for writing and puts. Nothing is freed when a file is replaced. It counts a fault only for a call that was to fail, or
/// where room or entries run out. The counts stop at their last value.
#[derive(Drop)]
pub struct MemStore {
    pub(crate) heap: Heap,
    // the files, the oldest first, but for the open output, which goes before them
    pub(crate) entries: Vec<Entry>,
    pub(crate) unused: usize,
    pub(crate) output: Option<Entry>,
    pub(crate) input: Option<Input>,
    pub(crate) fails: ArrayVec<FailEntry, MOST_FAILS>,
    pub(crate) faults: u64,
    pub(crate) misses: u64,
    pub(crate) opens: u64,
}

impl Model for MemStore {
    ghost use Rattle.store_io.specs.MemState.{MemState, mem_code};

    ghost Value = { MemState };

    ghost coded = { mem_code };

    ghost use Rattle.store_io.specs.MemView.{mem_view, IsMem};

    ghost view = { mem_view };

    ghost invariant = { IsMem };
}

impl MemStore {
    /// An empty store with room for so many bytes of names and contents, and so many openings for writing and puts.
    #[tactic(auto, unfolding(crate::specs::Entries::files_of))]
    pub fn new(alloc: Global, room: usize, names: usize) -> Result<MemStore, AllocError>
        ensures told { IfOk result (λ s. s.outside.told ≡ true) }
        ensures empty { IfOk result (λ s. s.outside.files ≡ empty) }
        ensures nothing_open { IfOk result (λ s. (s.outside.reading ≡ false) × (s.outside.left ≡ []) ×
            (s.outside.writing ≡ false)) }
        ensures no_count { IfOk result (λ s. (s.outside.faults ≡ 0) × (s.outside.misses ≡ 0) ×
            (s.outside.opens ≡ 0)) }
        ensures room { IfOk result (λ s. (s.room ≡ room) × (s.entries ≡ names)) }
        ensures no_fails { IfOk result (λ s. s.fails ≡ []) }
    {
        Ok(MemStore {
            heap: Heap::new(alloc, room)?,
            entries: Vec::with_capacity(alloc, names)?,
            unused: names,
            output: None,
            input: None,
            fails: ArrayVec::new(),
            faults: 0,
            misses: 0,
            opens: 0,
        })
    }

    /// Sets a file. It answers false exactly where no entry is left, or less room than the name and the bytes
    /// together; then all is as before.
    ///
    /// Input and output stay open. Where the name is that of the open output, its contents are the given bytes from
    /// then on, and later writes append to them.
    pub fn put(&mut self, name: &str, bytes: &[u8]) -> bool
        ensures fits { IsTrue result ↔ HasRoom self.old (length name.now + length bytes.now) }
        ensures set { OnTrue result (self.new.outside.files ≡ insert self.old.outside.files name.now
            bytes.now) }
        ensures spent { OnTrue result (Spends self.old self.new (length name.now + length bytes.now)) }
        ensures open { OnTrue result (KeepsOpen self.old self.new) }
        ensures refused { OnFalse result (self.new ≡ self.old) }
    {
        let fits = self.has_room_for(name.as_bytes(), bytes);
        if fits {
            self.set_file(name.as_bytes(), bytes);
        }
        fits
    }

    /// Lets the nth call of a kind on a name, counted from 1 and from now on, fail; 0 lets none fail. It answers false
    /// exactly where 64 calls were named already, or the name doesn't fit into the room; then all is as before.
    ///
    /// A failing call leaves the contents as they are. For a read, a write or a close the name is that of the open file,
    /// and where both are open a close counts for the output.
    pub fn fail(&mut self, kind: CallKind, name: &str, nth: u32) -> bool
        ensures fits { IsTrue result ↔ CanFail self.old name.now }
        ensures set { OnTrue result (self.new ≡ record self.old {
          fails = self.old.fails ++ (record { kind = kind; name = name.now; nth = nth }) ∷ [];
          room = self.old.room - length name.now;
        }) }
        ensures refused { OnFalse result (self.new ≡ self.old) }
    {
        self.add_fail(kind, name.as_bytes(), nth)
    }

    /// The bytes of a file. None exactly where no file has the name.
    pub fn file(&self, name: &str) -> Option<&[u8]>
        ensures held { IfSome result (λ bytes. get self.now.outside.files name.now ≡ Some bytes.now) }
        ensures missing { IsNone result ↔ (get self.now.outside.files name.now ≡ None) }
    {
        let entry = newest(&self.heap, &self.entries, self.output, name.as_bytes())?;
        Some(self.heap.part(entry.content))
    }

    /// How many calls failed.
    pub fn faults(&self) -> u64
        ensures { result ≡ self.now.outside.faults }
    {
        self.faults
    }

    /// How many openings for reading found no file.
    pub fn misses(&self) -> u64
        ensures { result ≡ self.now.outside.misses }
    {
        self.misses
    }
}

impl Store for MemStore {
    ghost state = { λ s. s.outside };

    /// It fails exactly where this call was to fail.
    fn open_read(&mut self, name: &str) -> Result<(), StoreErr>
        ensures fails { IsErrOf result StoreErr.Failed ↔ IsTrue (falls_due OpenRead (Some name.now)
            self.old.fails) }
        ensures counted { self.new.fails ≡ after_call OpenRead (Some name.now) self.old.fails }
        ensures input { OnOk result (self.new.input ≡ name.now) }
        ensures counts { CountsOnce self.old.outside self.new.outside result }
        ensures room { SameRoom self.old self.new }
        ensures found { OnOk result (get self.old.outside.files name.now ≡ Some self.new.outside.left) }
        ensures refused { OnErr result (self.new.outside.left ≡ []) }
        ensures missing { IsErrOf result StoreErr.Missing → get self.old.outside.files name.now ≡ None }
        ensures reading { OnOk result (self.new.outside.reading ≡ true) }
        ensures not_reading { OnErr result (self.new.outside.reading ≡ false) }
        ensures cause { HasCause self.old.outside self.new.outside result }
        ensures same { SameStore self.old.outside self.new.outside }
        ensures files { KeepsFiles self.old.outside self.new.outside }
    {
        self.close_input();
        if self.call(CallKind::OpenRead, name.as_bytes()) {
            return Err(self.fault());
        }
        if !self.open_input(name.as_bytes()) {
            return Err(self.miss());
        }
        Ok(())
    }

    /// It fails exactly where this call was to fail, and else takes as many bytes as are left and fit into the room.
    fn read(&mut self, room: &mut [u8]) -> Result<usize, StoreErr>
        ensures fails { IsErr result ↔ IsTrue (falls_due Read (input_name self.old) self.old.fails) }
        ensures counted { self.new.fails ≡ after_call Read (input_name self.old) self.old.fails }
        ensures count { IfOk result (λ k. k ≡ min (length room.old) (length self.old.outside.left)) }
        ensures counts { CountsOnce self.old.outside self.new.outside result }
        ensures room { SameRoom self.old self.new }
        ensures input { self.new.input ≡ self.old.input }
        ensures bound { IfOk result (λ k. k ≤ length room.old) }
        ensures taken { IfOk result (λ k. self.old.outside.left ≡ take k room.new ++
            self.new.outside.left) }
        ensures ended { IfOk result (λ k. k ≡ 0 → 0 < length room.old → self.old.outside.left ≡ []) }
        ensures kept { OnErr result (self.new.outside.left ≡ self.old.outside.left) }
        ensures no_input { self.old.outside.reading ≡ false → result ≡ Ok 0 }
        ensures reading { self.new.outside.reading ≡ self.old.outside.reading }
        ensures only_failed { IsErrOf result StoreErr.Missing → ⊥ }
        ensures cause { HasCause self.old.outside self.new.outside result }
        ensures same { SameStore self.old.outside self.new.outside }
        ensures files { KeepsFiles self.old.outside self.new.outside }
    {
        if self.call_input(CallKind::Read) {
            return Err(self.fault());
        }
        Ok(self.take(room))
    }

    /// It fails exactly where this call was to fail, or no entry or not enough room for the name is left.
    fn open_write(&mut self, name: &str) -> Result<(), StoreErr>
        ensures fails { IsErr result ↔ (IsTrue (falls_due OpenWrite (Some name.now) self.old.fails) ⊎
            LacksRoom self.old (length name.now)) }
        ensures counted_call { self.new.fails ≡ after_call OpenWrite (Some name.now) self.old.fails }
        ensures counts { CountsOnce self.old.outside self.new.outside result }
        ensures spent { OnOk result (Spends self.old self.new (length name.now)) }
        ensures room { OnErr result (SameRoom self.old self.new) }
        ensures input { self.new.input ≡ self.old.input }
        ensures untouched { OnErr result (self.new.outside.files ≡ self.old.outside.files) }
        ensures opened { OnOk result (self.new.outside.writing ≡ true) }
        ensures named { OnOk result (self.new.outside.output ≡ name.now) }
        ensures emptied { OnOk result (self.new.outside.files ≡ insert self.old.outside.files name.now
            []) }
        ensures closed { OnErr result (self.new.outside.writing ≡ false) }
        ensures only_failed { IsErrOf result StoreErr.Missing → ⊥ }
        ensures counted { OneMore self.old.outside.opens self.new.outside.opens }
        ensures left { self.new.outside.left ≡ self.old.outside.left }
        ensures reading { self.new.outside.reading ≡ self.old.outside.reading }
        ensures cause { HasCause self.old.outside self.new.outside result }
        ensures same { SameStore self.old.outside self.new.outside }
    {
        self.opening();
        let is_due = self.call(CallKind::OpenWrite, name.as_bytes());
        self.close_output();
        if is_due || !self.has_room(name.len()) {
            return Err(self.fault());
        }
        self.begin(name.as_bytes(), b"");
        Ok(())
    }

    /// Takes the whole piece. It fails, and takes nothing, exactly where this call was to fail, or where the piece is
    /// longer than the room that is left.
    fn write(&mut self, piece: &[u8]) -> Result<usize, StoreErr>
        requires { IsTrue self.old.outside.writing }
        ensures fails { IsErr result ↔ (IsTrue (falls_due Write (output_name self.old) self.old.fails) ⊎
            (self.old.room < length piece.now)) }
        ensures counted { self.new.fails ≡ after_call Write (output_name self.old) self.old.fails }
        ensures fits { IfOk result (λ k. k ≡ length piece.now) }
        ensures counts { CountsOnce self.old.outside self.new.outside result }
        ensures spent { IfOk result (λ k. self.new.room + k ≡ self.old.room) }
        ensures room { OnErr result (self.new.room ≡ self.old.room) }
        ensures entries { self.new.entries ≡ self.old.entries }
        ensures input { self.new.input ≡ self.old.input }
        ensures untouched { OnErr result (self.new.outside.files ≡ self.old.outside.files) }
        ensures bound { IfOk result (λ k. k ≤ length piece.now) }
        ensures progress { IfOk result (λ k. 0 < length piece.now → 0 < k) }
        ensures written { IfOk result (λ k. WritesOn self.old.outside self.new.outside
            (take k piece.now)) }
        ensures failed { OnErr result (WritesFront self.old.outside self.new.outside piece.now) }
        ensures only_failed { IsErrOf result StoreErr.Missing → ⊥ }
        ensures output { KeepsOutput self.old.outside self.new.outside }
        ensures left { self.new.outside.left ≡ self.old.outside.left }
        ensures reading { self.new.outside.reading ≡ self.old.outside.reading }
        ensures cause { HasCause self.old.outside self.new.outside result }
        ensures same { SameStore self.old.outside self.new.outside }
    {
        let is_due = self.call_output(CallKind::Write);
        if is_due || self.free() < piece.len() {
            return Err(self.fault());
        }
        self.append(piece);
        Ok(piece.len())
    }

    /// It fails exactly where this call was to fail.
    fn close(&mut self) -> Result<(), StoreErr>
        ensures fails { IsErr result ↔ IsTrue (falls_due Close (closed_name self.old) self.old.fails) }
        ensures counted { self.new.fails ≡ after_call Close (closed_name self.old) self.old.fails }
        ensures counts { CountsOnce self.old.outside self.new.outside result }
        ensures room { SameRoom self.old self.new }
        ensures files { self.new.outside.files ≡ self.old.outside.files }
        ensures opens { self.new.outside.opens ≡ self.old.outside.opens }
        ensures left { self.new.outside.left ≡ [] }
        ensures reading { self.new.outside.reading ≡ false }
        ensures closed { self.new.outside.writing ≡ false }
        ensures only_failed { IsErrOf result StoreErr.Missing → ⊥ }
        ensures cause { HasCause self.old.outside self.new.outside result }
        ensures same { SameStore self.old.outside self.new.outside }
    {
        let is_due = self.call_close();
        self.close_input();
        self.close_output();
        if is_due {
            return Err(self.fault());
        }
        Ok(())
    }
}
