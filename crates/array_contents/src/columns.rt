//! The words of one column of a local array.

ghost use Rattle.std.specs.Prelude.{◌≡◌, ◌<◌, ◌≤◌, ◌+◌, ◌*◌, ◌^◌, ℕ, ℤ, pos, List, Option, Some, length, slice_get, slice_index, ◌+ℤ◌, ◌*ℤ◌};
ghost use Rattle.std.specs.Int.{int_wrap, w32};
ghost use Rattle.scope_ops.specs.Lines.{numbered_from};
ghost use Rattle.array_contents.specs.Passes.{from_here};
ghost use Rattle.array_contents.specs.Columns.{filled_word, padding_word, placed_word, loaded_word, value_at};

use crate::Filling;

// `step * index` modulo 2^32.
#[inline]
fn product(step: i32, index: u32) -> i32
    ensures { result ≡ int_wrap w32 (step *ℤ pos index) }
{
    step.wrapping_mul(index.cast_signed())
}

// `first + step * index` modulo 2^32.
#[inline]
fn stepped(first: i32, step: i32, index: u32) -> i32
    ensures { result ≡ int_wrap w32 (first +ℤ (step *ℤ pos index)) }
{
    let term = product(step, index);
    first.wrapping_add(term)
}

// The elements of column `j` of the matrix in these rows of it, as the first words.
fn fill_elements(words: &mut [i32], rows: &[u32], j: u32, filling: &Filling)
    requires { length rows.now ≤ length words.old }
    ensures done { from_here (length rows.now) (filled_word filling.now rows.now (Some j)) words.new ≡
        from_here 0 (filled_word filling.now rows.now (Some j)) words.old }
    ensures len { length words.new ≡ length words.old }
{
    let first = stepped(filling.a, filling.c, j);
    for k in 0..rows.len() {
        words[k] = stepped(first, filling.b, rows[k]);
    }
}

// The padding from a word on.
fn fill_rest(words: &mut [i32], start: usize, padding: i32)
    requires { start ≤ length words.old }
    ensures { words.new ≡ from_here start (padding_word padding) words.old }
{
    for k in start..words.len() {
        words[k] = padding;
    }
}

/// FILL of an ARRAY: a local column which holds these rows of the matrix and that column of it, or no column of it.
pub(crate) fn fill_column(words: &mut [i32], rows: &[u32], column: Option<u32>, filling: &Filling)
    requires { length rows.now ≤ length words.old }
    ensures { (before : List ℤ) → length before ≡ length words.old →
        words.new ≡ numbered_from 0 (filled_word filling.now rows.now column) before }
{
    match column {
        Some(j) => {
            fill_elements(words, rows, j, filling);
            fill_rest(words, rows.len(), filling.d);
        }
        None => fill_rest(words, 0, filling.d),
    }
}

/// FILL of a MATRIX: local column `j` on a rank.
pub(crate) fn place_column(words: &mut [i32], j: u32, filling: &Filling, rank: u32)
    requires { length words.old ≤ 2 ^ 24 }
    ensures { (before : List ℤ) → length before ≡ length words.old →
        words.new ≡ numbered_from 0 (placed_word filling.now rank j) before }
{
    let first = stepped(stepped(filling.a, filling.c, j), filling.d, rank);
    for i in 0..words.len() as u32 {
        words[i as usize] = stepped(first, filling.b, i);
    }
}

/// LOAD: column `j` of the matrix, of which a local column holds these rows, as its first words. All other words stay.
pub(crate) fn load_elements(words: &mut [i32], rows: &[u32], values: &[i32], height: u32, j: u32)
    requires room { length rows.now ≤ length words.old }
    requires rows { (k : ℕ) → k < length rows.now → slice_index rows.now k < height }
    requires column { j * height + height ≤ length values.now }
    requires height { height ≤ 2 ^ 24 }
    requires small { j ≤ 2 ^ 24 }
    ensures { words.new ≡ numbered_from 0 (loaded_word values.now height rows.now (Some j)) words.old }
{
    let start = j as usize * height as usize;
    for k in 0..rows.len() {
        words[k] = values[start + rows[k] as usize];
    }
}
