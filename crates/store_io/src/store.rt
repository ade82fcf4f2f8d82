//! A store of files by name, and what each of its calls promises.
ghost use Rattle.std.specs.Prelude.{◌≡◌, ◌≤◌, ◌<◌, ◌++◌, [], ℕ, length, take, Some, None, IfOk, OnOk, OnErr, IsTrue, IsErrOf, false, true};
ghost use Rattle.std.specs.FinMap.{get, insert};
ghost use Rattle.store_io.specs.Outside.{Outside, SameStore, KeepsFiles, HasCause, WritesOn, WritesFront, Rose, OneMore, KeepsOutput, IsEither};

use thiserror::Error;

/// Why a call of a store did nothing, or not all that it was asked.
#[derive(Clone, Copy, Debug, PartialEq, Eq, Error)]
pub enum StoreErr {
    /// The file isn't there. It comes only from `open_read`, and counts as a miss.
    #[error("the file is missing")]
    Missing,
    /// The store failed. It counts as a fault.
    #[error("the store failed")]
    Failed,
}

/// Files by name, at most one of them open for reading and at most one for writing.
///
/// A store tells what it holds, or it doesn't (`told`). What is said of the files and of the unread bytes of
/// the input holds where it tells; what is said of the counts and of what is open holds for every store.
pub trait Store {
    ghost state: { Self → Outside };

    /// Opens a file for reading. An input that was open is given up, also where the call is refused.
    ///
    /// `Missing` comes where no file has the name, and `Failed` where the store fails; then no input is open.
    fn open_read(&mut self, name: &str) -> Result<(), StoreErr>
        ensures found { IsTrue (state self.old).told →
            OnOk result (get (state self.old).files name.now ≡ Some (state self.new).left) }
        ensures refused { IsTrue (state self.old).told → OnErr result ((state self.new).left ≡ []) }
        ensures missing { IsTrue (state self.old).told → IsErrOf result StoreErr.Missing →
            get (state self.old).files name.now ≡ None }
        ensures reading { OnOk result ((state self.new).reading ≡ true) }
        ensures not_reading { OnErr result ((state self.new).reading ≡ false) }
        ensures cause { HasCause (state self.old) (state self.new) result }
        ensures same { SameStore (state self.old) (state self.new) }
        ensures files { KeepsFiles (state self.old) (state self.new) };

    /// Takes the next bytes of the open input into the front of the room, and answers how many.
    ///
    /// `Ok(0)` comes only where the input has ended or the room is empty, and always where no input is open.
    /// After `Failed` the unread bytes are as before.
    fn read(&mut self, room: &mut [u8]) -> Result<usize, StoreErr>
        ensures bound { IfOk result (λ k. k ≤ length room.old) }
        ensures taken { IsTrue (state self.old).told →
            IfOk result (λ k. (state self.old).left ≡ take k room.new ++ (state self.new).left) }
        ensures ended { IsTrue (state self.old).told →
            IfOk result (λ k. k ≡ 0 → 0 < length room.old → (state self.old).left ≡ []) }
        ensures kept { IsTrue (state self.old).told →
            OnErr result ((state self.new).left ≡ (state self.old).left) }
        ensures no_input { (state self.old).reading ≡ false → result ≡ Ok 0 }
        ensures reading { (state self.new).reading ≡ (state self.old).reading }
        ensures only_failed { IsErrOf result StoreErr.Missing → ⊥ }
        ensures cause { HasCause (state self.old) (state self.new) result }
        ensures same { SameStore (state self.old) (state self.new) }
        ensures files { KeepsFiles (state self.old) (state self.new) };

    /// Makes a file empty and opens it for writing. An output that was open is given up, also where the call is refused.
    ///
    /// After `Failed` no output is open, and the files are as before or the named one is empty.
    fn open_write(&mut self, name: &str) -> Result<(), StoreErr>
        ensures opened { OnOk result ((state self.new).writing ≡ true) }
        ensures named { IsTrue (state self.old).told →
            OnOk result ((state self.new).output ≡ name.now) }
        ensures emptied { IsTrue (state self.old).told →
            OnOk result ((state self.new).files ≡ insert (state self.old).files name.now []) }
        ensures refused { IsTrue (state self.old).told →
            OnErr result (IsEither ((state self.new).files ≡ (state self.old).files)
            ((state self.new).files ≡ insert (state self.old).files name.now [])) }
        ensures closed { OnErr result ((state self.new).writing ≡ false) }
        ensures only_failed { IsErrOf result StoreErr.Missing → ⊥ }
        ensures counted { OneMore (state self.old).opens (state self.new).opens }
        ensures left { IsTrue (state self.old).told → (state self.new).left ≡ (state self.old).left }
        ensures reading { (state self.new).reading ≡ (state self.old).reading }
        ensures cause { HasCause (state self.old) (state self.new) result }
        ensures same { SameStore (state self.old) (state self.new) };

    /// Appends some front of the piece to the open output, and answers how many bytes it took.
    ///
    /// At least one byte of a piece that isn't empty is taken. After `Failed` some front of the piece, maybe
    /// none of it, was appended.
    fn write(&mut self, piece: &[u8]) -> Result<usize, StoreErr>
        requires { IsTrue (state self.old).writing }
        ensures bound { IfOk result (λ k. k ≤ length piece.now) }
        ensures progress { IfOk result (λ k. 0 < length piece.now → 0 < k) }
        ensures written { IsTrue (state self.old).told →
            IfOk result (λ k. WritesOn (state self.old) (state self.new) (take k piece.now)) }
        ensures failed { IsTrue (state self.old).told →
            OnErr result (WritesFront (state self.old) (state self.new) piece.now) }
        ensures only_failed { IsErrOf result StoreErr.Missing → ⊥ }
        ensures output { KeepsOutput (state self.old) (state self.new) }
        ensures left { IsTrue (state self.old).told → (state self.new).left ≡ (state self.old).left }
        ensures reading { (state self.new).reading ≡ (state self.old).reading }
        ensures cause { HasCause (state self.old) (state self.new) result }
        ensures same { SameStore (state self.old) (state self.new) };

    /// Gives up the input and the output, whatever it answers.
    fn close(&mut self) -> Result<(), StoreErr>
        ensures files { IsTrue (state self.old).told → (state self.new).files ≡ (state self.old).files }
        ensures opens { (state self.new).opens ≡ (state self.old).opens }
        ensures left { IsTrue (state self.old).told → (state self.new).left ≡ [] }
        ensures reading { (state self.new).reading ≡ false }
        ensures closed { (state self.new).writing ≡ false }
        ensures only_failed { IsErrOf result StoreErr.Missing → ⊥ }
        ensures cause { HasCause (state self.old) (state self.new) result }
        ensures same { SameStore (state self.old) (state self.new) };
}
