//! Texts that are to be saved, by their numbers.
ghost use Rattle.std.specs.Prelude.{◌≡◌, ◌<◌, ℕ, IsTrue};
ghost use Rattle.text_io.specs.Saving.{Saves, SavesCause, OpensOnce};
ghost use Rattle.save_list.specs.Save.{Save};

use piece_file::Name;
use store_io::{Store, StoreErr};

/// Texts that are to be saved, each under a name of its own, in the order of their numbers from 0.
pub trait SaveList {
    /// How many there are.
    ghost count: { Self → ℕ };

    /// The name and the text of each number.
    ghost save_at: { Self → ℕ → Save };

    /// How many texts there are.
    fn count_saves(&self) -> u32
        ensures { result ≡ count self.now };

    /// Saves the text of one number: it opens its file for writing once, writes the text, and closes the file. It takes no
    /// memory. `Failed` comes where the store failed; the file is then as before, or holds a front of the text.
    fn save_one<S: Store>(&self, store: &mut S, number: u32) -> Result<(), StoreErr>
        requires { number < count self.now }
        ensures saves { IsTrue (S.state store.old).told →
            Saves result (S.state store.old).files (S.state store.new).files (save_at self.now number).name
            (save_at self.now number).text }
        ensures opens { OpensOnce (S.state store.old) (S.state store.new) }
        ensures cause { SavesCause result (S.state store.old) (S.state store.new) };

    /// The name of one number, to keep. It takes no memory.
    fn into_name(self, number: u32) -> Name
        requires { number < count self }
        ensures { result ≡ (save_at self number).name };
}
