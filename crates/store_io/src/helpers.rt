//! Writing all of some bytes, however many a call takes.
ghost use Rattle.std.specs.Prelude.{◌≡◌, ◌≤◌, ◌++◌, IsTrue, OnOk, OnErr, IsErrOf};
ghost use Rattle.store_io.specs.Outside.{SameStore, HasCause, WritesOn, WritesFront, KeepsOutput, GivesCause, GrewByFront};

use crate::{Sink, SinkErr, Store, StoreErr};

/// Appends all of the bytes to the open output, or fails with a front of them appended. It takes no memory.
pub fn store_all<S: Store>(store: &mut S, bytes: &[u8]) -> Result<(), StoreErr>
    requires { IsTrue (S.state store.old).writing }
    ensures written { IsTrue (S.state store.old).told →
        OnOk result (WritesOn (S.state store.old) (S.state store.new) bytes.now) }
    ensures failed { IsTrue (S.state store.old).told →
        OnErr result (WritesFront (S.state store.old) (S.state store.new) bytes.now) }
    ensures only_failed { IsErrOf result StoreErr.Missing → ⊥ }
    ensures output { KeepsOutput (S.state store.old) (S.state store.new) }
    ensures left { IsTrue (S.state store.old).told →
        (S.state store.new).left ≡ (S.state store.old).left }
    ensures reading { (S.state store.new).reading ≡ (S.state store.old).reading }
    ensures cause { HasCause (S.state store.old) (S.state store.new) result }
    ensures same { SameStore (S.state store.old) (S.state store.new) }
{
    let mut done = 0;
    while done < bytes.len() {
        match store.write(&bytes[done..]) {
            Ok(count) => done += count,
            Err(error) => return Err(error),
        }
    }
    Ok(())
}

/// Appends all of the bytes, or fails with a front of them appended. It takes no memory.
pub fn sink_all<S: Sink>(sink: &mut S, bytes: &[u8]) -> Result<(), SinkErr>
    ensures written { IsTrue (S.state sink.old).told →
        OnOk result ((S.state sink.new).bytes ≡ (S.state sink.old).bytes ++ bytes.now) }
    ensures failed { IsTrue (S.state sink.old).told →
        OnErr result (GrewByFront (S.state sink.old) (S.state sink.new) bytes.now) }
    ensures same { (S.state sink.new).told ≡ (S.state sink.old).told }
    ensures cause { GivesCause (S.state sink.old) (S.state sink.new) result }
{
    let mut done = 0;
    while done < bytes.len() {
        match sink.write(&bytes[done..]) {
            Ok(count) => done += count,
            Err(error) => return Err(error),
        }
    }
    Ok(())
}
