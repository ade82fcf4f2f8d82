//! One column of a region.

ghost use Rattle.std.specs.Prelude.{◌≡◌, ◌<◌, ◌≤◌, ◌+◌, ◌++◌, length, take, drop};
ghost use Rattle.pack_words.specs.LocalCells.{IsLocalCells};
ghost use Rattle.pack_words.specs.Packing.{IsInCut, IsInArray, AreRows, AreSelectedRows, column_spots, words_at, with_words};

use crate::cut::Cut;
use crate::diag::Diag;
use crate::local_array::LocalArray;
use crate::parts::put_part;
use crate::region::Region;
use crate::shape::Shape;
use crate::uplo::Uplo;

// The first row of the cut that is selected in column `j`, and the one after the last.
#[inline]
fn rows_of(cut: &Cut, j: u32) -> (u32, u32)
    requires { j < cut.now.n }
    ensures { AreRows cut.now j result.0 result.1 }
{
    let tall = cut.m.saturating_sub(cut.n);
    let wide = cut.n.saturating_sub(cut.m);
    match cut.shape {
        Shape::Ge => (0, cut.m),
        Shape::Tr(Uplo::Upper, Diag::N) => (0, j + tall + 1),
        Shape::Tr(Uplo::Upper, Diag::U) => (0, j + tall),
        Shape::Tr(Uplo::Lower, Diag::N) => (j.saturating_sub(wide), cut.m),
        Shape::Tr(Uplo::Lower, Diag::U) => ((j + 1).saturating_sub(wide), cut.m),
    }
}

// As `selected_part`, of a trapezoid: apart, so that loops over columns of whole shapes stay short.
#[inline(never)]
fn trapezoid_part(cut: &Cut, region: &Region, v: u32) -> (u32, u32)
    requires cut { IsInCut cut.now region.now }
    requires column { v < region.now.cols }
    ensures { AreSelectedRows cut.now region.now v result.0 result.1 }
{
    let (first, last) = rows_of(cut, region.j0 + v);
    let first = first.saturating_sub(region.i0).min(region.rows);
    let last = last.saturating_sub(region.i0).min(region.rows);
    (first, last)
}

/// The selected rows of the region's column `v` are those from the first number to before the second, counted from the
/// region's first row.
#[inline]
pub fn selected_part(cut: &Cut, region: &Region, v: u32) -> (u32, u32)
    requires cut { IsInCut cut.now region.now }
    requires column { v < region.now.cols }
    ensures { AreSelectedRows cut.now region.now v result.0 result.1 }
{
    if let Shape::Ge = cut.shape {
        return (0, region.rows);
    }
    trapezoid_part(cut, region, v)
}

/// The words of the region's column `v` into `out` from `at` on. The words before stay. Gives where they end.
#[inline]
pub fn pack_column(
    array: &LocalArray,
    region: &Region,
    cut: &Cut,
    v: u32,
    out: &mut [i32],
    at: usize,
) -> usize
    requires cut { IsInCut cut.now region.now }
    requires limits { IsLocalCells array.now }
    requires array { IsInArray array.now region.now }
    requires column { v < region.now.cols }
    requires room { at + length (column_spots cut.now region.now v) ≤ length out.old }
    ensures end { result ≡ at + length (column_spots cut.now region.now v) }
    ensures words { take result out.new ≡ take at out.old ++
        words_at array.now (column_spots cut.now region.now v) }
{
    let (first, last) = selected_part(cut, region, v);
    let end = at + (last - first) as usize;
    let part = array.part(region.li + first, region.lj + v, last - first);
    put_part(out, at, part);
    end
}

/// The words from `at` on into the region's column `v`. Gives where they end.
#[inline]
pub fn unpack_column(
    array: &mut LocalArray,
    region: &Region,
    cut: &Cut,
    v: u32,
    words: &[i32],
    at: usize,
) -> usize
    requires cut { IsInCut cut.now region.now }
    requires limits { IsLocalCells array.old }
    requires array { IsInArray array.old region.now }
    requires column { v < region.now.cols }
    requires room { at + length (column_spots cut.now region.now v) ≤ length words.now }
    ensures end { result ≡ at + length (column_spots cut.now region.now v) }
    ensures array { let len = length (column_spots cut.now region.now v) in
        array.new ≡ with_words array.old (column_spots cut.now region.now v) (take len (drop at words.now)) }
    ensures limits { IsLocalCells array.new }
{
    let (first, last) = selected_part(cut, region, v);
    let end = at + (last - first) as usize;
    array.set_part(region.li + first, region.lj + v, &words[at..end]);
    end
}
