//! The files of a store in memory.
ghost use Rattle.std.specs.Prelude.{◌≡◌, IsTrue, ◌↔◌, IfSome, MatchOption, Some, None};
ghost use Rattle.std.specs.List.{AllByRecursion};
ghost use Rattle.std.specs.FinMap.{get, empty};
ghost use Rattle.store_io.specs.Outside.{Files};
ghost use Rattle.store_io.specs.Heap.{part_of, IsPart};
ghost use Rattle.store_io.specs.Entries.{IsEntry, IsOutput, files_of, with_output};

use crate::heap::{Heap, Part};

/// A file: its name and its bytes.
#[derive(Clone, Copy)]
pub(crate) struct Entry {
    pub name: Part,
    pub content: Part,
}

/// The open input: its name and its unread bytes.
#[derive(Clone, Copy)]
pub(crate) struct Input {
    pub name: Part,
    pub left: Part,
}

/// Whether an entry has the name.
pub(crate) fn is_named(heap: &Heap, entry: Entry, name: &[u8]) -> bool
    requires { IsPart heap.now entry.name }
    ensures { IsTrue result ↔ (part_of heap.now entry.name ≡ name.now) }
{
    heap.part(entry.name) == name
}

// The newest entry of a name.
#[tactic(auto, using(crate::proofs::EntryLaws::entry_at, crate::proofs::EntryLaws::found_none, crate::proofs::EntryLaws::found_own, crate::proofs::EntryLaws::found_other, crate::proofs::EntryLaws::found_all))]
fn find(heap: &Heap, entries: &[Entry], name: &[u8]) -> Option<Entry>
    requires { AllByRecursion (IsEntry heap.now) entries.now }
    ensures entry { IfSome result (IsEntry heap.now) }
    ensures named { IfSome result (λ e. part_of heap.now e.name ≡ name.now) }
    ensures found { MatchOption result (get (files_of empty heap.now entries.now) name.now ≡ None)
        (λ e. get (files_of empty heap.now entries.now) name.now ≡ Some (part_of heap.now e.content)) }
{
    let mut found = None;
    for entry in entries {
        if is_named(heap, *entry, name) {
            found = Some(*entry);
        }
    }
    found
}

/// The newest entry of a name, where the open output goes before all others.
#[tactic(auto, using(crate::proofs::EntryLaws::own, crate::proofs::EntryLaws::other))]
pub(crate) fn newest(
    heap: &Heap,
    entries: &[Entry],
    output: Option<Entry>,
    name: &[u8],
) -> Option<Entry>
    requires entries { AllByRecursion (IsEntry heap.now) entries.now }
    requires output { IfSome output (IsOutput heap.now) }
    ensures entry { IfSome result (IsEntry heap.now) }
    ensures named { IfSome result (λ e. part_of heap.now e.name ≡ name.now) }
    ensures found { let files = with_output heap.now output (files_of empty heap.now entries.now) in
        MatchOption result (get files name.now ≡ None) (λ e. get files name.now ≡ Some (part_of heap.now e.content)) }
{
    if let Some(entry) = output {
        if is_named(heap, entry, name) {
            return output;
        }
    }
    find(heap, entries, name)
}
