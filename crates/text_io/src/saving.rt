//! Saving a text as a file.
ghost use Rattle.std.specs.Prelude.{◌≡◌, ℕ, List, [], IsTrue};
ghost use Rattle.text_io.specs.Writing.{Puts, Writes};
ghost use Rattle.text_io.specs.Saving.{Pours, Saves, SavesCause, OpensOnce, LeavesOpen};

use crate::pen::Pen;
use store_io::{Store, StoreErr};

/// A text that can be put.
pub trait Text {
    ghost bytes: { Self → List ℕ };

    /// Puts all of it.
    fn put<S: Store>(&self, pen: &mut Pen, store: &mut S) -> Result<(), StoreErr>
        requires { IsTrue (S.state store.old).writing }
        ensures { Puts result (S.state store.old) (S.state store.new) pen.old pen.new (bytes self.now) };
}

// The whole text to the open output.
#[tactic(auto, using(crate::proofs::Putting::pours_whole, crate::proofs::Putting::pours_part, crate::proofs::Putting::pours_none))]
fn pour<S: Store, T: Text>(store: &mut S, text: &T) -> Result<(), StoreErr>
    requires { IsTrue (S.state store.old).writing }
    ensures pours { IsTrue (S.state store.old).told →
        Pours result (S.state store.old) (S.state store.new) (T.bytes text.now) }
    ensures writes { Writes result (S.state store.old) (S.state store.new) }
{
    let mut pen = Pen::new();
    text.put(&mut pen, store)?;
    pen.flush(store)?;
    Ok(())
}

/// Writes a text to a file, and closes it. It takes no memory. `Failed` comes where the store failed; the file is then as
/// opening it left it, or holds a front of the text. A failed opening leaves no output open, a failed write leaves the file
/// open, and both leave the input as it was; a failed close leaves nothing open.
#[tactic(auto, using(crate::proofs::Putting::saves_front))]
pub fn save<S: Store, T: Text>(store: &mut S, name: &str, text: &T) -> Result<(), StoreErr>
    ensures saves { IsTrue (S.state store.old).told →
        Saves result (S.state store.old).files (S.state store.new).files name.now (T.bytes text.now) }
    ensures opens { OpensOnce (S.state store.old) (S.state store.new) }
    ensures cause { SavesCause result (S.state store.old) (S.state store.new) }
    ensures open { LeavesOpen result (S.state store.old) (S.state store.new) }
{
    store.open_write(name)?;
    pour(store, text)?;
    match store.close() {
        Ok(()) => Ok(()),
        Err(error) => Err(error),
    }
}
