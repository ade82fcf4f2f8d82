//! The steps of a store in memory.
ghost use Rattle.std.specs.Prelude.{◌≡◌, ◌≢◌, ◌≤◌, ◌+◌, ◌-◌, ◌++◌, ◌∷◌, [], length, take, drop, min, IsTrue, Some, None, ◌↔◌, true, false};
ghost use Rattle.std.specs.Bool.{OnTrue, OnFalse};
ghost use Rattle.std.specs.FinMap.{get};
ghost use Rattle.store_io.specs.Fails.{falls_due, after_call};
ghost use Rattle.store_io.specs.MemState.{HasRoom, CanFail, input_name, output_name, closed_name};
ghost use Rattle.store_io.specs.MemSteps.{with_fault, with_miss, with_opening, with_file, with_output, without_output, with_piece, with_input, without_input, with_left};
ghost use Rattle.store_io.specs.declared.call_kind.CallKind.TheVariants.{Close};

use crate::entries::{Entry, Input, is_named, newest};
use crate::fails::{FailEntry, count_call};
use crate::heap::Part;
use crate::{CallKind, MemStore, StoreErr};

impl MemStore {
    /// One more call has failed.
    pub(crate) fn fault(&mut self) -> StoreErr
        ensures answer { result ≡ StoreErr.Failed }
        ensures counted { self.new ≡ with_fault self.old }
        ensures later { self.old.outside.faults ≤ self.new.outside.faults }
    {
        self.faults = self.faults.saturating_add(1);
        StoreErr::Failed
    }

    /// One more file was missing.
    pub(crate) fn miss(&mut self) -> StoreErr
        ensures answer { result ≡ StoreErr.Missing }
        ensures counted { self.new ≡ with_miss self.old }
        ensures later { self.old.outside.misses ≤ self.new.outside.misses }
    {
        self.misses = self.misses.saturating_add(1);
        StoreErr::Missing
    }

    /// One more opening for writing.
    pub(crate) fn opening(&mut self)
        ensures { self.new ≡ with_opening self.old }
    {
        self.opens = self.opens.saturating_add(1);
    }

    /// The bytes of room that are left.
    pub(crate) fn free(&self) -> usize
        ensures { result ≡ self.now.room }
    {
        self.heap.room()
    }

    /// Whether an entry is left, and room for so many bytes.
    pub(crate) fn has_room(&self, count: usize) -> bool
        ensures { IsTrue result ↔ HasRoom self.now count }
    {
        self.unused > 0 && count <= self.heap.room()
    }

    /// Whether an entry is left, and room for a name and its contents.
    pub(crate) fn has_room_for(&self, name: &[u8], content: &[u8]) -> bool
        ensures { IsTrue result ↔ HasRoom self.now (length name.now + length content.now) }
    {
        let free = self.heap.room();
        self.unused > 0 && name.len() <= free && content.len() <= free - name.len()
    }

    /// Gives the output up.
    #[tactic(auto, using(crate::proofs::EntryLaws::files_more))]
    pub(crate) fn close_output(&mut self)
        ensures { self.new ≡ without_output self.old }
    {
        if let Some(entry) = self.output {
            self.entries.push_reserved(entry);
            self.output = None;
        }
    }

    /// Makes a file, which is the open output from then on.
    pub(crate) fn begin(&mut self, name: &[u8], content: &[u8])
        requires room { HasRoom self.old (length name.now + length content.now) }
        requires closed { self.old.outside.writing ≡ false }
        ensures { self.new ≡ with_output (with_file self.old name.now content.now) name.now }
    {
        let name = self.heap.add(name);
        let content = self.heap.add(content);
        self.output = Some(Entry { name, content });
        self.unused -= 1;
    }

    /// Adds to the open output.
    pub(crate) fn append(&mut self, piece: &[u8])
        requires writing { IsTrue self.old.outside.writing }
        requires room { length piece.now ≤ self.old.room }
        ensures { self.new ≡ with_piece self.old piece.now }
    {
        let Some(entry) = self.output else {
            unreachable!()
        };
        let content = self.heap.grow(entry.content, piece);
        self.output = Some(Entry {
            name: entry.name,
            content,
        });
    }

    // Sets a file that isn't the open output.
    fn lay(&mut self, name: &[u8], content: &[u8])
        requires room { HasRoom self.old (length name.now + length content.now) }
        requires other { IsTrue self.old.outside.writing → self.old.outside.output ≢ name.now }
        ensures { self.new ≡ with_file self.old name.now content.now }
    {
        let name = self.heap.lay(name);
        let content = self.heap.lay(content);
        self.entries.push_reserved(Entry { name, content });
        self.unused -= 1;
    }

    // Whether the open output has the name.
    fn is_output(&self, name: &[u8]) -> bool
        ensures { IsTrue result ↔ (IsTrue self.now.outside.writing × (self.now.outside.output ≡ name.now)) }
    {
        match self.output {
            Some(entry) => is_named(&self.heap, entry, name),
            None => false,
        }
    }

    /// Sets a file. The open output stays the open output.
    pub(crate) fn set_file(&mut self, name: &[u8], content: &[u8])
        requires { HasRoom self.old (length name.now + length content.now) }
        ensures { self.new ≡ with_file self.old name.now content.now }
    {
        if self.is_output(name) {
            self.close_output();
            self.begin(name, content);
        } else {
            self.lay(name, content);
        }
    }

    /// Opens a file for reading; false where no file has the name, and then no input is open.
    pub(crate) fn open_input(&mut self, name: &[u8]) -> bool
        ensures opened { OnTrue result (self.new ≡ with_input self.old name.now self.new.outside.left) }
        ensures found { OnTrue result (get self.old.outside.files name.now ≡ Some self.new.outside.left) }
        ensures missing { OnFalse result (get self.old.outside.files name.now ≡ None) }
        ensures closed { OnFalse result (self.new ≡ without_input self.old) }
    {
        self.input = None;
        let Some(entry) = newest(&self.heap, &self.entries, self.output, name) else {
            return false;
        };
        self.input = Some(Input {
            name: entry.name,
            left: entry.content,
        });
        true
    }

    /// Gives the input up.
    pub(crate) fn close_input(&mut self)
        ensures { self.new ≡ without_input self.old }
    {
        self.input = None;
    }

    /// Takes the next bytes of the input, and answers how many.
    pub(crate) fn take(&mut self, room: &mut [u8]) -> usize
        ensures count { result ≡ min (length room.old) (length self.old.outside.left) }
        ensures none { self.old.outside.reading ≡ false → self.old.outside.left ≡ [] }
        ensures taken { self.old.outside.left ≡ take result room.new ++ self.new.outside.left }
        ensures rest { self.new ≡ with_left self.old (drop result self.old.outside.left) }
    {
        let Some(input) = self.input else {
            return 0;
        };
        let left = self.heap.part(input.left);
        let count = room.len().min(left.len());
        room[..count].copy_from_slice(&left[..count]);
        self.input = Some(Input {
            name: input.name,
            left: Part {
                aside: input.left.aside,
                from: input.left.from + count,
                to: input.left.to,
            },
        });
        count
    }

    /// Lets a call fail. False exactly where 64 entries are there, or the name doesn't fit into the room.
    pub(crate) fn add_fail(&mut self, kind: CallKind, name: &[u8], nth: u32) -> bool
        ensures fits { IsTrue result ↔ CanFail self.old name.now }
        ensures set { OnTrue result (self.new ≡ record self.old {
          fails = self.old.fails ++ (record { kind = kind; name = name.now; nth = nth }) ∷ [];
          room = self.old.room - length name.now;
        }) }
        ensures refused { OnFalse result (self.new ≡ self.old) }
    {
        if self.fails.is_full() || self.heap.room() < name.len() {
            return false;
        }
        let name = self.heap.lay(name);
        self.fails.push(FailEntry { kind, name, nth });
        true
    }

    /// Counts a call on a name; whether it is to fail.
    pub(crate) fn call(&mut self, kind: CallKind, name: &[u8]) -> bool
        ensures due { result ≡ falls_due kind (Some name.now) self.old.fails }
        ensures counted { self.new ≡ record self.old { fails = after_call kind (Some name.now) self.old.fails } }
    {
        count_call(&self.heap, &mut self.fails, kind, name)
    }

    /// Counts a call on the open input; whether it is to fail.
    pub(crate) fn call_input(&mut self, kind: CallKind) -> bool
        ensures due { result ≡ falls_due kind (input_name self.old) self.old.fails }
        ensures counted { self.new ≡ record self.old { fails = after_call kind (input_name self.old) self.old.fails } }
    {
        match self.input {
            Some(input) => count_call(
                &self.heap,
                &mut self.fails,
                kind,
                self.heap.part(input.name),
            ),
            None => false,
        }
    }

    /// Counts a call on the open output; whether it is to fail.
    pub(crate) fn call_output(&mut self, kind: CallKind) -> bool
        ensures due { result ≡ falls_due kind (output_name self.old) self.old.fails }
        ensures counted { self.new ≡ record self.old { fails = after_call kind (output_name self.old) self.old.fails } }
    {
        match self.output {
            Some(entry) => count_call(
                &self.heap,
                &mut self.fails,
                kind,
                self.heap.part(entry.name),
            ),
            None => false,
        }
    }

    /// Counts a close, on the output where one is open, and else on the input; whether it is to fail.
    pub(crate) fn call_close(&mut self) -> bool
        ensures due { result ≡ falls_due Close (closed_name self.old) self.old.fails }
        ensures counted { self.new ≡ record self.old {
          fails = after_call Close (closed_name self.old) self.old.fails;
        } }
    {
        if self.is_writing() {
            self.call_output(CallKind::Close)
        } else {
            self.call_input(CallKind::Close)
        }
    }

    fn is_writing(&self) -> bool
        ensures { result ≡ self.now.outside.writing }
    {
        self.output.is_some()
    }
}
