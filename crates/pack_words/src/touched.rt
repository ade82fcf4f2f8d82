//! Words of a region where a cut touches it.

ghost use Rattle.std.specs.Prelude.{◌≡◌, ◌≤◌, ◌+◌, ◌^◌, ◌++◌, length, take, drop};
ghost use Rattle.pack_words.specs.LocalCells.{IsLocalCells};
ghost use Rattle.pack_words.specs.Packing.{AllInCut, AllInArray, spots, words_at, with_words};
ghost use Rattle.pack_words.specs.Products.{is_touched, touched};

use crate::cut::Cut;
use crate::diag::Diag;
use crate::local_array::LocalArray;
use crate::packing::{count_region, pack_region, unpack_region};
use crate::region::Region;
use crate::shape::Shape;
use crate::uplo::Uplo;

// As `touches`, of a trapezoid: apart, so that loops over rectangles of whole shapes stay short.
#[inline(never)]
fn trapezoid_touches(cut: &Cut, region: &Region) -> bool
    ensures { result ≡ is_touched cut.now region.now }
{
    let tall = cut.m.saturating_sub(cut.n) as u64;
    let wide = cut.n.saturating_sub(cut.m) as u64;
    let (i, j) = (region.i0 as u64, region.j0 as u64);
    let right = (j + region.cols as u64).saturating_sub(1);
    let bottom = (i + region.rows as u64).saturating_sub(1);
    match cut.shape {
        Shape::Ge => true,
        Shape::Tr(Uplo::Upper, Diag::N) => i <= right + tall,
        Shape::Tr(Uplo::Upper, Diag::U) => i < right + tall,
        Shape::Tr(Uplo::Lower, Diag::N) => j <= bottom + wide,
        Shape::Tr(Uplo::Lower, Diag::U) => j < bottom + wide,
    }
}

/// Whether the region has an element that the cut selects, told by the corner that the shape favours.
#[inline]
pub fn touches(cut: &Cut, region: &Region) -> bool
    ensures { result ≡ is_touched cut.now region.now }
{
    if let Shape::Ge = cut.shape {
        return true;
    }
    trapezoid_touches(cut, region)
}

/// How many elements of the region are selected, where the cut `by` touches it.
#[inline]
pub fn count_touched(region: &Region, by: &Cut, cut: &Cut) -> u32
    requires cut { AllInCut cut.now (touched by.now region.now) }
    requires few { length (spots cut.now (touched by.now region.now)) ≤ 2 ^ 26 }
    ensures { result ≡ length (spots cut.now (touched by.now region.now)) }
{
    if touches(by, region) {
        return count_region(region, cut);
    }
    0
}

/// As `pack_region`, where the cut `by` touches the region.
#[inline]
pub fn pack_touched(
    array: &LocalArray,
    region: &Region,
    by: &Cut,
    cut: &Cut,
    out: &mut [i32],
    start: usize,
) -> usize
    requires cut { AllInCut cut.now (touched by.now region.now) }
    requires limits { IsLocalCells array.now }
    requires array { AllInArray array.now (touched by.now region.now) }
    requires room { start + length (spots cut.now (touched by.now region.now)) ≤ length out.old }
    ensures end { result ≡ start + length (spots cut.now (touched by.now region.now)) }
    ensures words { take result out.new ≡ take start out.old ++
        words_at array.now (spots cut.now (touched by.now region.now)) }
{
    if touches(by, region) {
        return pack_region(array, region, cut, out, start);
    }
    start
}

/// As `unpack_region`, where the cut `by` touches the region.
#[inline]
pub fn unpack_touched(
    array: &mut LocalArray,
    region: &Region,
    by: &Cut,
    cut: &Cut,
    words: &[i32],
    start: usize,
) -> usize
    requires cut { AllInCut cut.now (touched by.now region.now) }
    requires limits { IsLocalCells array.old }
    requires array { AllInArray array.old (touched by.now region.now) }
    requires room { start + length (spots cut.now (touched by.now region.now)) ≤ length words.now }
    ensures end { result ≡ start + length (spots cut.now (touched by.now region.now)) }
    ensures array { let len = length (spots cut.now (touched by.now region.now)) in
        array.new ≡ with_words array.old (spots cut.now (touched by.now region.now)) (take len (drop start words.now)) }
    ensures limits { IsLocalCells array.new }
{
    if touches(by, region) {
        return unpack_region(array, region, cut, words, start);
    }
    start
}
