//! Words of the row runs in one column run, all of whose elements are selected.

ghost use Rattle.std.specs.Prelude.{◌≡◌, ◌≤◌, ◌+◌, ◌++◌, length, take, drop};
ghost use Rattle.std.specs.List.{AllByRecursion};
ghost use Rattle.pack_words.specs.declared.shape.Shape.TheVariants.{Ge};
ghost use Rattle.pack_words.specs.LocalCells.{IsLocalCells};
ghost use Rattle.pack_words.specs.Packing.{AllInCut, AllInArray, spots, words_at, with_words};
ghost use Rattle.pack_words.specs.Products.{down};
ghost use Rattle.pack_words.specs.RowRuns.{IsRunOf, run_spots};

use crate::cut::Cut;
use crate::local_array::LocalArray;
use crate::packing::{pack_region, unpack_region};
use crate::parts::put_part;
use crate::shape::Shape;
use crate::span::{Span, crossing_of};

// The same cut, whose shape the compiler knows, so that no column of a loop asks for it.
#[inline(always)]
fn whole_of(cut: &Cut) -> Cut
    requires { cut.now.shape ≡ Ge }
    ensures { result ≡ cut.now }
{
    Cut {
        shape: Shape::Ge,
        m: cut.m,
        n: cut.n,
    }
}

// The words of the row runs in local column `j` into `out` from `start` on. The words before stay. Gives where they end.
#[inline(never)]
fn pack_in_column(array: &LocalArray, rows: &[Span], j: u32, out: &mut [i32], start: usize) -> usize
    requires limits { IsLocalCells array.now }
    requires array { AllByRecursion (IsRunOf array.now j) rows.now }
    requires room { start + length (run_spots rows.now j) ≤ length out.old }
    ensures end { result ≡ start + length (run_spots rows.now j) }
    ensures words { take result out.new ≡ take start out.old ++ words_at array.now (run_spots rows.now j) }
{
    let mut at = start;
    for row in rows {
        let part = array.part(row.place, j, row.len);
        put_part(out, at, part);
        at += row.len as usize;
    }
    at
}

// The words of the row runs in a run of columns into `out` from `start` on. The words before stay. Gives where they end.
#[inline(never)]
fn pack_in_columns(
    array: &LocalArray,
    rows: &[Span],
    col: &Span,
    cut: &Cut,
    out: &mut [i32],
    start: usize,
) -> usize
    requires shape { cut.now.shape ≡ Ge }
    requires cut { AllInCut cut.now (down rows.now col.now) }
    requires limits { IsLocalCells array.now }
    requires array { AllInArray array.now (down rows.now col.now) }
    requires room { start + length (spots cut.now (down rows.now col.now)) ≤ length out.old }
    ensures end { result ≡ start + length (spots cut.now (down rows.now col.now)) }
    ensures words { take result out.new ≡ take start out.old ++
        words_at array.now (spots cut.now (down rows.now col.now)) }
{
    let whole = whole_of(cut);
    let mut at = start;
    for row in rows {
        let region = crossing_of(row, col);
        at = pack_region(array, &region, &whole, out, at);
    }
    at
}

/// The words of the row runs in one column run into `out` from `start` on, all of them. The words before stay. Gives where
/// they end.
pub fn pack_whole_down(
    array: &LocalArray,
    rows: &[Span],
    col: &Span,
    cut: &Cut,
    out: &mut [i32],
    start: usize,
) -> usize
    requires shape { cut.now.shape ≡ Ge }
    requires cut { AllInCut cut.now (down rows.now col.now) }
    requires limits { IsLocalCells array.now }
    requires array { AllInArray array.now (down rows.now col.now) }
    requires room { start + length (spots cut.now (down rows.now col.now)) ≤ length out.old }
    ensures end { result ≡ start + length (spots cut.now (down rows.now col.now)) }
    ensures words { take result out.new ≡ take start out.old ++
        words_at array.now (spots cut.now (down rows.now col.now)) }
{
    if col.len == 1 {
        return pack_in_column(array, rows, col.place, out, start);
    }
    pack_in_columns(array, rows, col, cut, out, start)
}

// The words from `start` on into the row runs in local column `j`. Gives where they end.
#[inline(never)]
fn unpack_in_column(
    array: &mut LocalArray,
    rows: &[Span],
    j: u32,
    words: &[i32],
    start: usize,
) -> usize
    requires limits { IsLocalCells array.old }
    requires array { AllByRecursion (IsRunOf array.old j) rows.now }
    requires room { start + length (run_spots rows.now j) ≤ length words.now }
    ensures end { result ≡ start + length (run_spots rows.now j) }
    ensures array { array.new ≡ with_words array.old (run_spots rows.now j)
        (take (length (run_spots rows.now j)) (drop start words.now)) }
    ensures limits { IsLocalCells array.new }
{
    let mut at = start;
    for row in rows {
        let end = at + row.len as usize;
        array.set_part(row.place, j, &words[at..end]);
        at = end;
    }
    at
}

// The words from `start` on into the row runs in a run of columns. Gives where they end.
#[inline(never)]
fn unpack_in_columns(
    array: &mut LocalArray,
    rows: &[Span],
    col: &Span,
    cut: &Cut,
    words: &[i32],
    start: usize,
) -> usize
    requires shape { cut.now.shape ≡ Ge }
    requires cut { AllInCut cut.now (down rows.now col.now) }
    requires limits { IsLocalCells array.old }
    requires array { AllInArray array.old (down rows.now col.now) }
    requires room { start + length (spots cut.now (down rows.now col.now)) ≤ length words.now }
    ensures end { result ≡ start + length (spots cut.now (down rows.now col.now)) }
    ensures array { let len = length (spots cut.now (down rows.now col.now)) in
        array.new ≡ with_words array.old (spots cut.now (down rows.now col.now)) (take len (drop start words.now)) }
    ensures limits { IsLocalCells array.new }
{
    let whole = whole_of(cut);
    let mut at = start;
    for row in rows {
        let region = crossing_of(row, col);
        at = unpack_region(array, &region, &whole, words, at);
    }
    at
}

/// The words from `start` on into the row runs in one column run, all of them. Gives where they end.
pub fn unpack_whole_down(
    array: &mut LocalArray,
    rows: &[Span],
    col: &Span,
    cut: &Cut,
    words: &[i32],
    start: usize,
) -> usize
    requires shape { cut.now.shape ≡ Ge }
    requires cut { AllInCut cut.now (down rows.now col.now) }
    requires limits { IsLocalCells array.old }
    requires array { AllInArray array.old (down rows.now col.now) }
    requires room { start + length (spots cut.now (down rows.now col.now)) ≤ length words.now }
    ensures end { result ≡ start + length (spots cut.now (down rows.now col.now)) }
    ensures array { let len = length (spots cut.now (down rows.now col.now)) in
        array.new ≡ with_words array.old (spots cut.now (down rows.now col.now)) (take len (drop start words.now)) }
    ensures limits { IsLocalCells array.new }
{
    if col.len == 1 {
        return unpack_in_column(array, rows, col.place, words, start);
    }
    unpack_in_columns(array, rows, col, cut, words, start)
}
