//! Saving texts one after the other.
ghost use Rattle.std.specs.Prelude.{◌≡◌, ◌<◌, IfErr};
ghost use Rattle.save_list.specs.Saving.{SavesAll};

use crate::list::SaveList;
use crate::save_err::SaveErr;
use store_io::Store;

/// Saves all texts of a list in their order, each with one opening of its file for writing. It takes no memory.
///
/// The error comes where the store failed, with the number of the text. The texts before it are then saved; its file is as
/// before or holds a front of its text; every other file is as before, and none of them was opened.
#[tactic(auto, using(crate::proofs::SavedLaws::saved_none, crate::proofs::SavedLaws::saved_next, crate::proofs::SavedLaws::opened_none, crate::proofs::SavedLaws::opened_next))]
pub fn save_all<S: Store, L: SaveList>(store: &mut S, list: &L) -> Result<(), SaveErr>
    ensures saves { SavesAll result (L.save_at list.now) (L.count list.now) (S.state store.old)
        (S.state store.new) }
    ensures number { IfErr result (λ e. e.save < L.count list.now) }
{
    for number in 0..list.count_saves() {
        match list.save_one(store, number) {
            Ok(()) => {}
            Err(_) => return Err(SaveErr { save: number }),
        }
    }
    Ok(())
}
