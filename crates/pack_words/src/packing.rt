//! Words of regions into a message, and out of it.

ghost use Rattle.std.specs.Prelude.{◌≡◌, ◌<◌, ◌≤◌, ◌+◌, ◌^◌, ◌++◌, List, length, take, drop};
ghost use Rattle.pack_words.specs.declared.cut.Cut.{Cut};
ghost use Rattle.pack_words.specs.declared.region.Region.{Region};
ghost use Rattle.pack_words.specs.LocalCells.{LocalCells, IsLocalCells};
ghost use Rattle.pack_words.specs.Packing.{IsInCut, IsInArray, AllInCut, AllInArray, region_spots, spots, words_at, with_words, selected_count, packed, unpacked, AllAlike, NameOnce, AllApart, IsAssigned, IsCopied};

use crate::column::{pack_column, selected_part, unpack_column};
use crate::cut::Cut;
use crate::local_array::LocalArray;
use crate::region::Region;

/// How many elements of the region are selected.
#[inline]
pub fn count_region(region: &Region, cut: &Cut) -> u32
    requires cut { IsInCut cut.now region.now }
    requires count { length (region_spots cut.now region.now) ≤ 2 ^ 26 }
    ensures { result ≡ length (region_spots cut.now region.now) }
{
    let mut count = 0;
    for v in 0..region.cols {
        let (first, last) = selected_part(cut, region, v);
        count += last - first;
    }
    count
}

/// The words of the region into `out` from `start` on. The words before stay. Gives where they end.
#[inline]
pub fn pack_region(
    array: &LocalArray,
    region: &Region,
    cut: &Cut,
    out: &mut [i32],
    start: usize,
) -> usize
    requires cut { IsInCut cut.now region.now }
    requires limits { IsLocalCells array.now }
    requires array { IsInArray array.now region.now }
    requires room { start + length (region_spots cut.now region.now) ≤ length out.old }
    ensures end { result ≡ start + length (region_spots cut.now region.now) }
    ensures words { take result out.new ≡ take start out.old ++
        words_at array.now (region_spots cut.now region.now) }
{
    let mut at = start;
    for v in 0..region.cols {
        at = pack_column(array, region, cut, v, out, at);
    }
    at
}

/// The words from `start` on into the region. Gives where they end.
#[inline]
pub fn unpack_region(
    array: &mut LocalArray,
    region: &Region,
    cut: &Cut,
    words: &[i32],
    start: usize,
) -> usize
    requires cut { IsInCut cut.now region.now }
    requires limits { IsLocalCells array.old }
    requires array { IsInArray array.old region.now }
    requires room { start + length (region_spots cut.now region.now) ≤ length words.now }
    ensures end { result ≡ start + length (region_spots cut.now region.now) }
    ensures array { let len = length (region_spots cut.now region.now) in
        array.new ≡ with_words array.old (region_spots cut.now region.now) (take len (drop start words.now)) }
    ensures limits { IsLocalCells array.new }
{
    let mut at = start;
    for v in 0..region.cols {
        at = unpack_column(array, region, cut, v, words, at);
    }
    at
}

/// How many elements of the regions are selected: at most 2^26.
pub fn count(regions: &[Region], cut: &Cut) -> u32
    requires cut { AllInCut cut.now regions.now }
    requires most { selected_count cut.now regions.now ≤ 2 ^ 26 }
    ensures { result ≡ selected_count cut.now regions.now }
{
    let mut count = 0;
    for region in regions {
        count += count_region(region, cut);
    }
    count
}

/// The words of the selected elements, region by region, each by columns, into `out`, which has their number.
pub fn pack(array: &LocalArray, regions: &[Region], cut: &Cut, out: &mut [i32])
    requires cut { AllInCut cut.now regions.now }
    requires array { AllInArray array.now regions.now }
    requires len { length out.old ≡ selected_count cut.now regions.now }
    ensures { out.new ≡ packed cut.now regions.now array.now }
{
    let _lead = array.lld();
    let mut at = 0;
    for region in regions {
        at = pack_region(array, region, cut, out, at);
    }
}

// Each word to its element, as `unpack`.
fn unpack_regions(array: &mut LocalArray, regions: &[Region], cut: &Cut, words: &[i32])
    requires cut { AllInCut cut.now regions.now }
    requires array { AllInArray array.old regions.now }
    requires len { length words.now ≡ selected_count cut.now regions.now }
    ensures after { array.new ≡ unpacked cut.now regions.now words.now array.old }
    ensures limits { IsLocalCells array.old }
{
    let _lead = array.lld();
    let mut at = 0;
    for region in regions {
        at = unpack_region(array, region, cut, words, at);
    }
}

/// Each word to its element, region by region, each by columns. All other places stay.
pub fn unpack(array: &mut LocalArray, regions: &[Region], cut: &Cut, words: &[i32])
    requires cut { AllInCut cut.now regions.now }
    requires array { AllInArray array.old regions.now }
    requires len { length words.now ≡ selected_count cut.now regions.now }
    ensures after { array.new ≡ unpacked cut.now regions.now words.now array.old }
    ensures assigned { NameOnce cut.now regions.now →
        IsAssigned cut.now regions.now words.now array.old array.new }
{
    unpack_regions(array, regions, cut, words);
}

/// Unpacking what was packed, over regions of the same sizes and cut places, copies the selected elements.
pub fn unpack_after_pack()
    ensures { (cut : Cut) (sources targets : List Region) (a b : LocalCells) →
        IsLocalCells b → AllInArray b targets → AllAlike sources targets → NameOnce cut targets →
        IsCopied cut sources targets a b (unpacked cut targets (packed cut sources a) b) }
{}

/// Regions that do not overlap name no place twice.
pub fn apart_names_once()
    ensures { (cut : Cut) (regions : List Region) → AllApart regions → NameOnce cut regions }
{}
