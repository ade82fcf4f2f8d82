//! Words of every row run by every column run.

ghost use Rattle.std.specs.Prelude.{◌≡◌, ◌≤◌, ◌<◌, ◌+◌, ◌*◌, ◌^◌, ◌++◌, length, take, drop, slice_index_or};
ghost use Rattle.pack_words.specs.LocalCells.{IsLocalCells};
ghost use Rattle.pack_words.specs.Packing.{no_region, AllInCut, AllInArray, spots, words_at, with_words, selected_count, packed, unpacked};
ghost use Rattle.pack_words.specs.Products.{touched_down, product, touched_product, indices_of, AreFewRuns};

use crate::cut::Cut;
use crate::local_array::LocalArray;
use crate::region::Region;
use crate::row_runs::{pack_whole_down, unpack_whole_down};
use crate::shape::Shape;
use crate::span::{Span, crossing_of};
use crate::touched::{count_touched, pack_touched, unpack_touched};

// The selected elements of the row runs in one column run, after `so_far`.
fn count_down(rows: &[Span], col: &Span, by: &Cut, cut: &Cut, so_far: u32) -> u32
    requires cut { AllInCut cut.now (touched_down by.now rows.now col.now) }
    requires few { so_far + length (spots cut.now (touched_down by.now rows.now col.now)) ≤ 2 ^ 26 }
    ensures { result ≡ so_far + length (spots cut.now (touched_down by.now rows.now col.now)) }
{
    let mut count = so_far;
    for row in rows {
        let region = crossing_of(row, col);
        count += count_touched(&region, by, cut);
    }
    count
}

// How many rows or columns the runs have together.
fn indices_together(runs: &[Span]) -> u64
    requires { length runs.now ≤ 2 ^ 24 }
    ensures { result ≡ indices_of runs.now }
{
    let mut indices = 0;
    for run in runs {
        indices += u64::from(run.len);
    }
    indices
}

// As `count_product`, where both cuts are whole.
fn count_whole_product(rows: &[Span], cols: &[Span]) -> u32
    requires few { AreFewRuns rows.now cols.now }
    requires most { indices_of cols.now * indices_of rows.now ≤ 2 ^ 26 }
    ensures { result ≡ indices_of cols.now * indices_of rows.now }
{
    (indices_together(cols) * indices_together(rows)) as u32
}

// As `count_product`, rectangle by rectangle.
fn count_rectangles(rows: &[Span], cols: &[Span], by: &Cut, cut: &Cut) -> u32
    requires cut { AllInCut cut.now (touched_product by.now rows.now cols.now) }
    requires most { selected_count cut.now (touched_product by.now rows.now cols.now) ≤ 2 ^ 26 }
    ensures { result ≡ selected_count cut.now (touched_product by.now rows.now cols.now) }
{
    let mut count = 0;
    for col in cols {
        count = count_down(rows, col, by, cut, count);
    }
    count
}

/// How many elements every row run by every column run selects: at most 2^26. Whole shapes take the time of the runs.
pub fn count_product(rows: &[Span], cols: &[Span], by: &Cut, cut: &Cut) -> u32
    requires few { AreFewRuns rows.now cols.now }
    requires cut { AllInCut cut.now (touched_product by.now rows.now cols.now) }
    requires most { selected_count cut.now (touched_product by.now rows.now cols.now) ≤ 2 ^ 26 }
    ensures { result ≡ selected_count cut.now (touched_product by.now rows.now cols.now) }
{
    if by.shape == Shape::Ge && cut.shape == Shape::Ge {
        return count_whole_product(rows, cols);
    }
    count_rectangles(rows, cols, by, cut)
}

// As `pack_down`, rectangle by rectangle.
fn pack_touched_down(
    array: &LocalArray,
    rows: &[Span],
    col: &Span,
    by: &Cut,
    cut: &Cut,
    out: &mut [i32],
    start: usize,
) -> usize
    requires cut { AllInCut cut.now (touched_down by.now rows.now col.now) }
    requires limits { IsLocalCells array.now }
    requires array { AllInArray array.now (touched_down by.now rows.now col.now) }
    requires room { start + length (spots cut.now (touched_down by.now rows.now col.now)) ≤ length out.old }
    ensures end { result ≡ start + length (spots cut.now (touched_down by.now rows.now col.now)) }
    ensures words { take result out.new ≡ take start out.old ++
        words_at array.now (spots cut.now (touched_down by.now rows.now col.now)) }
{
    let mut at = start;
    for row in rows {
        let region = crossing_of(row, col);
        at = pack_touched(array, &region, by, cut, out, at);
    }
    at
}

// The words of the row runs in one column run into `out` from `start` on. The words before stay. Gives where they end.
fn pack_down(
    array: &LocalArray,
    rows: &[Span],
    col: &Span,
    by: &Cut,
    cut: &Cut,
    out: &mut [i32],
    start: usize,
) -> usize
    requires cut { AllInCut cut.now (touched_down by.now rows.now col.now) }
    requires limits { IsLocalCells array.now }
    requires array { AllInArray array.now (touched_down by.now rows.now col.now) }
    requires room { start + length (spots cut.now (touched_down by.now rows.now col.now)) ≤ length out.old }
    ensures end { result ≡ start + length (spots cut.now (touched_down by.now rows.now col.now)) }
    ensures words { take result out.new ≡ take start out.old ++
        words_at array.now (spots cut.now (touched_down by.now rows.now col.now)) }
{
    if by.shape == Shape::Ge && cut.shape == Shape::Ge {
        return pack_whole_down(array, rows, col, cut, out, start);
    }
    pack_touched_down(array, rows, col, by, cut, out, start)
}

/// The words of every row run by every column run into `out`, which has their number.
pub fn pack_product(
    array: &LocalArray,
    rows: &[Span],
    cols: &[Span],
    by: &Cut,
    cut: &Cut,
    out: &mut [i32],
)
    requires cut { AllInCut cut.now (touched_product by.now rows.now cols.now) }
    requires array { AllInArray array.now (touched_product by.now rows.now cols.now) }
    requires len { length out.old ≡ selected_count cut.now (touched_product by.now rows.now cols.now) }
    ensures { out.new ≡ packed cut.now (touched_product by.now rows.now cols.now) array.now }
{
    let _lead = array.lld();
    let mut at = 0;
    for col in cols {
        at = pack_down(array, rows, col, by, cut, out, at);
    }
}

// As `unpack_down`, rectangle by rectangle.
fn unpack_touched_down(
    array: &mut LocalArray,
    rows: &[Span],
    col: &Span,
    by: &Cut,
    cut: &Cut,
    words: &[i32],
    start: usize,
) -> usize
    requires cut { AllInCut cut.now (touched_down by.now rows.now col.now) }
    requires limits { IsLocalCells array.old }
    requires array { AllInArray array.old (touched_down by.now rows.now col.now) }
    requires room { start + length (spots cut.now (touched_down by.now rows.now col.now)) ≤ length words.now }
    ensures end { result ≡ start + length (spots cut.now (touched_down by.now rows.now col.now)) }
    ensures array { let len = length (spots cut.now (touched_down by.now rows.now col.now)) in
        array.new ≡ with_words array.old (spots cut.now (touched_down by.now rows.now col.now)) (take len (drop start words.now)) }
    ensures limits { IsLocalCells array.new }
{
    let mut at = start;
    for row in rows {
        let region = crossing_of(row, col);
        at = unpack_touched(array, &region, by, cut, words, at);
    }
    at
}

// The words from `start` on into the row runs in one column run. Gives where they end.
fn unpack_down(
    array: &mut LocalArray,
    rows: &[Span],
    col: &Span,
    by: &Cut,
    cut: &Cut,
    words: &[i32],
    start: usize,
) -> usize
    requires cut { AllInCut cut.now (touched_down by.now rows.now col.now) }
    requires limits { IsLocalCells array.old }
    requires array { AllInArray array.old (touched_down by.now rows.now col.now) }
    requires room { start + length (spots cut.now (touched_down by.now rows.now col.now)) ≤ length words.now }
    ensures end { result ≡ start + length (spots cut.now (touched_down by.now rows.now col.now)) }
    ensures array { let len = length (spots cut.now (touched_down by.now rows.now col.now)) in
        array.new ≡ with_words array.old (spots cut.now (touched_down by.now rows.now col.now)) (take len (drop start words.now)) }
    ensures limits { IsLocalCells array.new }
{
    if by.shape == Shape::Ge && cut.shape == Shape::Ge {
        return unpack_whole_down(array, rows, col, cut, words, start);
    }
    unpack_touched_down(array, rows, col, by, cut, words, start)
}

/// Each word to its element of every row run by every column run. All other places stay.
pub fn unpack_product(
    array: &mut LocalArray,
    rows: &[Span],
    cols: &[Span],
    by: &Cut,
    cut: &Cut,
    words: &[i32],
)
    requires cut { AllInCut cut.now (touched_product by.now rows.now cols.now) }
    requires array { AllInArray array.old (touched_product by.now rows.now cols.now) }
    requires len { length words.now ≡ selected_count cut.now (touched_product by.now rows.now cols.now) }
    ensures { array.new ≡ unpacked cut.now (touched_product by.now rows.now cols.now) words.now array.old }
{
    let _lead = array.lld();
    let mut at = 0;
    for col in cols {
        at = unpack_down(array, rows, col, by, cut, words, at);
    }
}

/// The number of rectangles.
#[inline]
#[tactic(auto, using(crate::proofs::Crossing::product_size))]
pub fn crossing_count(rows: &[Span], cols: &[Span]) -> usize
    requires { AreFewRuns rows.now cols.now }
    ensures { result ≡ length (product rows.now cols.now) }
{
    rows.len() * cols.len()
}

/// Rectangle `k`, counted from 0.
#[inline]
pub fn nth_crossing(rows: &[Span], cols: &[Span], k: usize) -> Region
    requires { k < length (product rows.now cols.now) }
    ensures { result ≡ slice_index_or (product rows.now cols.now) k no_region }
{
    crossing_of(&rows[k % rows.len()], &cols[k / rows.len()])
}
