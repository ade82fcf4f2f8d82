//! The words of a local array are set, column by column.

ghost use Rattle.std.specs.Prelude.{◌≡◌, ◌≤◌, ◌<◌, length, slice_index_or};
ghost use Rattle.program_meaning.specs.Filling.{written_cells};
ghost use Rattle.pack_words.specs.LocalCells.{LocalCells, IsLocalCells, zeros};
ghost use Rattle.array_contents.specs.LocalWords.{place_word, IsOn};
ghost use Rattle.array_contents.specs.Contents.{with_cells};

use crate::local_words::{LocalWords, next_column};
use pack_words::LocalArray;

// The words of an array, with room for the words of a column.
#[tactic(auto, using(crate::proofs::CellLaws::column_more, crate::proofs::CellLaws::columns_done))]
fn set_columns(array: &mut LocalArray, by: &LocalWords, words: &mut [i32])
    requires limits { IsLocalCells array.old }
    requires on { IsOn by.now array.old.lld }
    requires room { length words.old ≡ array.old.lld }
    ensures { array.new ≡ written_cells (place_word by.now array.old.lld) array.old }
{
    for j in 0..array.cols() {
        next_column(words, array, by, j);
        array.set_part(0, j, words);
    }
}

// The words of an array of a rank, with room for at least the words of a column.
fn set_words(array: &mut LocalArray, by: &LocalWords, room: &mut [i32])
    requires on { IsOn by.now array.old.lld }
    requires room { array.old.lld ≤ length room.old }
    ensures array { array.new ≡ written_cells (place_word by.now array.old.lld) array.old }
    ensures room { length room.new ≡ length room.old }
{
    let lld = array.lld() as usize;
    set_columns(array, by, &mut room[..lld]);
}

/// The words of the array of that number on a rank, where the rank has it.
pub(crate) fn set_array(mine: &mut Vec<LocalArray>, array: u32, by: &LocalWords, room: &mut [i32])
    requires on { array < length mine.old.items → IsOn by.now (slice_index_or mine.old.items array (zeros 1 0)).lld }
    requires room { array < length mine.old.items → (slice_index_or mine.old.items array (zeros 1 0)).lld ≤ length room.old }
    ensures arrays { mine.new.items ≡ with_cells array (λ c. written_cells (place_word by.now c.lld) c) mine.old.items }
    ensures room { length room.new ≡ length room.old }
{
    if (array as usize) < mine.len() {
        set_words(&mut mine[array as usize], by, room);
    }
}
