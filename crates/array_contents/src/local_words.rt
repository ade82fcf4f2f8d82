//! What the words of a local array become.

ghost use Rattle.std.specs.Prelude.{◌≡◌, ◌<◌, ℕ, ℤ, length, slice_get};
ghost use Rattle.scope_ops.specs.Lines.{numbered_from};
ghost use Rattle.pack_words.specs.LocalCells.{IsLocalCells, column_of};
ghost use Rattle.array_contents.specs.LocalWords.{local_word, spread_word, IsOn, IsFrom};

use crate::Filling;
use crate::columns::{fill_column, load_elements, place_column};
use mm_text::Whole;
use pack_words::LocalArray;

/// What the elements of a spread matrix become.
#[derive(Clone, Copy)]
pub(crate) enum Source<'a> {
    /// What FILL says.
    Fill(Filling),
    /// Those of a matrix.
    Load(&'a Whole),
}

/// What the words of one local array become, by local rows and columns.
#[derive(Clone, Copy)]
pub(crate) enum LocalWords<'a> {
    /// The elements in these rows and columns of a spread matrix.
    Spread {
        source: &'a Source<'a>,
        rows: &'a [u32],
        columns: &'a [u32],
    },
    /// What FILL says of a MATRIX on this rank.
    Placed {
        filling: Filling,
        rank: u32,
    },
}

// The index at a place, if there is one.
#[inline]
fn index_at(indices: &[u32], place: u32) -> Option<u32>
    ensures { result ≡ slice_get indices.now place }
{
    indices.get(place as usize).copied()
}

// The words of a column which holds these rows of a spread matrix and that column of it, or no column of it.
fn spread_column(
    words: &mut [i32],
    before: &[i32],
    source: &Source,
    rows: &[u32],
    column: Option<u32>,
)
    requires on { IsFrom source.now rows.now column (length words.old) }
    requires whole { length before.now ≡ length words.old }
    ensures { words.new ≡ numbered_from 0 (spread_word source.now rows.now column) before.now }
{
    match source {
        Source::Fill(filling) => fill_column(words, rows, column, filling),
        Source::Load(whole) => {
            words.copy_from_slice(before);
            if let Some(j) = column {
                load_elements(words, rows, &whole.words, whole.rows, j);
            }
        }
    }
}

/// What column `j` of a local array becomes.
pub(crate) fn next_column(words: &mut [i32], array: &LocalArray, by: &LocalWords, j: u32)
    requires on { IsOn by.now array.now.lld }
    requires whole { length words.old ≡ array.now.lld }
    requires column { j < array.now.cols }
    requires limits { IsLocalCells array.now }
    ensures { words.new ≡ numbered_from 0 (local_word by.now j) (column_of array.now j) }
{
    let before = array.column(j);
    match by {
        LocalWords::Spread {
            source,
            rows,
            columns,
        } => spread_column(words, before, source, rows, index_at(columns, j)),
        LocalWords::Placed { filling, rank } => place_column(words, j, filling, *rank),
    }
}
