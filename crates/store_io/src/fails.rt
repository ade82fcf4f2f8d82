//! Calls that are to fail, by entries.
ghost use Rattle.std.specs.Prelude.{◌≡◌, map};
ghost use Rattle.std.specs.List.{AllByRecursion, list_any};
ghost use Rattle.store_io.specs.Fails.{is_for, is_due, counted};
ghost use Rattle.store_io.specs.Heap.{IsPart};
ghost use Rattle.store_io.specs.Entries.{fail_of, names_of};

use crate::CallKind;
use crate::heap::{Heap, Part};
use arrayvec::ArrayVec;

/// The most calls that are to fail in one store.
pub(crate) const MOST_FAILS: usize = 64;

/// The nth call of a kind on a name is to fail; 0 where it has been.
#[derive(Clone, Copy)]
pub(crate) struct FailEntry {
    pub kind: CallKind,
    pub name: Part,
    pub nth: u32,
}

impl Default for FailEntry {
    fn default() -> FailEntry {
        FailEntry {
            kind: CallKind::Read,
            name: Part {
                aside: false,
                from: 0,
                to: 0,
            },
            nth: 0,
        }
    }
}

/// Whether an entry counts calls of this kind on this name.
fn counts_call(heap: &Heap, entry: FailEntry, kind: CallKind, name: &[u8]) -> bool
    requires { IsPart heap.now entry.name }
    ensures { result ≡ is_for kind name.now (fail_of heap.now entry) }
{
    entry.kind.number() == kind.number() && heap.part(entry.name) == name
}

/// Counts a call at one entry; whether the entry lets it fail.
fn count_one(heap: &Heap, entry: &mut FailEntry, kind: CallKind, name: &[u8]) -> bool
    requires { IsPart heap.now entry.old.name }
    ensures due { result ≡ is_due kind name.now (fail_of heap.now entry.old) }
    ensures counted { fail_of heap.now entry.new ≡ counted kind name.now (fail_of heap.now entry.old) }
    ensures name { entry.new.name ≡ entry.old.name }
{
    if !counts_call(heap, *entry, kind, name) {
        return false;
    }
    let due = entry.nth == 1;
    entry.nth = entry.nth.saturating_sub(1);
    due
}

// Counts a call at each entry; whether one of them lets it fail.
fn count_each(heap: &Heap, entries: &mut [FailEntry], kind: CallKind, name: &[u8]) -> bool
    requires { AllByRecursion (IsPart heap.now) (names_of entries.old) }
    ensures due { result ≡ list_any (is_due kind name.now) (map (fail_of heap.now) entries.old) }
    ensures counted { map (fail_of heap.now) entries.new ≡ map (counted kind name.now)
        (map (fail_of heap.now) entries.old) }
    ensures names { names_of entries.new ≡ names_of entries.old }
{
    let mut due = false;
    for i in 0..entries.len() {
        due |= count_one(heap, &mut entries[i], kind, name);
    }
    due
}

/// Counts a call at each entry; whether one of them lets it fail.
#[tactic(auto, using(crate::proofs::FailLemmas::refilled))]
pub(crate) fn count_call(
    heap: &Heap,
    entries: &mut ArrayVec<FailEntry, MOST_FAILS>,
    kind: CallKind,
    name: &[u8],
) -> bool
    requires { AllByRecursion (IsPart heap.now) (names_of entries.old.items) }
    ensures due { result ≡ list_any (is_due kind name.now) (map (fail_of heap.now) entries.old.items) }
    ensures counted { map (fail_of heap.now) entries.new.items ≡ map (counted kind name.now)
        (map (fail_of heap.now) entries.old.items) }
    ensures names { names_of entries.new.items ≡ names_of entries.old.items }
{
    count_each(heap, entries, kind, name)
}
