//! A piece of a spread matrix, word by word.
ghost use Rattle.std.specs.Prelude.{◌≡◌, pos, slice_get, slice_index_or};

use crate::piece::PieceCells;
use mm_text::Cells;

// The word at a place, or 0 past the end.
#[inline]
fn word_or_zero(words: &[i32], place: usize) -> i32
    ensures { result ≡ slice_index_or words.now place (pos 0) }
{
    words.get(place).copied().unwrap_or(0)
}

// The index at a place, if there is one.
#[inline]
fn index_at(indices: &[u32], place: u32) -> Option<u32>
    ensures { result ≡ slice_get indices.now place }
{
    indices.get(place as usize).copied()
}

impl Cells for PieceCells<'_> {
    ghost use Rattle.spread_cells.specs.PieceView.{piece_matrix, piece_whole};

    ghost matrix = { piece_matrix };

    ghost whole = { piece_whole };

    #[inline]
    fn rows(&self) -> u32 {
        (self.rows.len() as u32).max(1)
    }

    #[inline]
    fn columns(&self) -> u32 {
        (self.columns.len() as u32).max(1)
    }

    #[inline]
    fn word(&self, i: u32, j: u32) -> i32 {
        let Some(row) = index_at(self.rows, i) else {
            return 0;
        };
        let Some(column) = index_at(self.columns, j) else {
            return 0;
        };
        let place = u64::from(column) * u64::from(self.whole.rows) + u64::from(row);
        word_or_zero(&self.whole.words, place as usize)
    }
}
