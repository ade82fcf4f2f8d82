//! Words of one local array into another, without a message between.

ghost use Rattle.std.specs.Prelude.{◌≡◌, ◌≢◌, ◌<◌, length, slice_index_or, slice_set};
ghost use Rattle.pack_words.specs.LocalCells.{IsLocalCells, zeros};
ghost use Rattle.pack_words.specs.Packing.{IsInCut, IsInArray, AllInCut, AllInArray, column_spots, region_spots, words_at, with_words, packed, unpacked, IsAlike, AllAlike};

use crate::column::selected_part;
use crate::cut::Cut;
use crate::local_array::LocalArray;
use crate::region::Region;
use crate::regions::Regions;

// The selected words of column `v` of one region into that of the other.
#[inline]
fn copy_column(
    from: &LocalArray,
    source: &Region,
    to: &mut LocalArray,
    target: &Region,
    cut: &Cut,
    v: u32,
)
    requires cut { IsInCut cut.now source.now }
    requires alike { IsAlike source.now target.now }
    requires from_limits { IsLocalCells from.now }
    requires to_limits { IsLocalCells to.old }
    requires in_from { IsInArray from.now source.now }
    requires in_to { IsInArray to.old target.now }
    requires column { v < source.now.cols }
    ensures array { to.new ≡ with_words to.old (column_spots cut.now target.now v)
        (words_at from.now (column_spots cut.now source.now v)) }
    ensures limits { IsLocalCells to.new }
{
    let (first, last) = selected_part(cut, source, v);
    let part = from.part(source.li + first, source.lj + v, last - first);
    to.set_part(target.li + first, target.lj + v, part);
}

// The selected words of one region into the other.
fn copy_region(from: &LocalArray, source: &Region, to: &mut LocalArray, target: &Region, cut: &Cut)
    requires cut { IsInCut cut.now source.now }
    requires alike { IsAlike source.now target.now }
    requires from_limits { IsLocalCells from.now }
    requires to_limits { IsLocalCells to.old }
    requires in_from { IsInArray from.now source.now }
    requires in_to { IsInArray to.old target.now }
    ensures array { to.new ≡ with_words to.old (region_spots cut.now target.now)
        (words_at from.now (region_spots cut.now source.now)) }
    ensures limits { IsLocalCells to.new }
{
    for v in 0..source.cols {
        copy_column(from, source, to, target, cut, v);
    }
}

/// The selected words of the sources into the targets, which are of the same sizes and cut places in the same order.
pub fn copy(from: &LocalArray, sources: &Regions, to: &mut LocalArray, targets: &Regions, cut: &Cut)
    requires cut { AllInCut cut.now sources.now }
    requires alike { AllAlike sources.now targets.now }
    requires in_from { AllInArray from.now sources.now }
    requires in_to { AllInArray to.old targets.now }
    ensures { to.new ≡ unpacked cut.now targets.now (packed cut.now sources.now from.now) to.old }
{
    let _lead = from.lld();
    let _other = to.lld();
    let mut before = sources.walk();
    let mut after = targets.walk();
    while let Some(source) = before.next() {
        let Some(target) = after.next() else {
            return;
        };
        copy_region(from, &source, to, &target, cut);
    }
}

/// The same from one array of a list into another.
pub fn copy_between(
    arrays: &mut [LocalArray],
    from: usize,
    sources: &Regions,
    to: usize,
    targets: &Regions,
    cut: &Cut,
)
    requires cut { AllInCut cut.now sources.now }
    requires alike { AllAlike sources.now targets.now }
    requires from { from < length arrays.old }
    requires to { to < length arrays.old }
    requires apart { from ≢ to }
    requires in_from { AllInArray (slice_index_or arrays.old from (zeros 1 0)) sources.now }
    requires in_to { AllInArray (slice_index_or arrays.old to (zeros 1 0)) targets.now }
    ensures { let words = packed cut.now sources.now (slice_index_or arrays.old from (zeros 1 0)) in
        arrays.new ≡ slice_set arrays.old to
        (unpacked cut.now targets.now words (slice_index_or arrays.old to (zeros 1 0))) }
{
    if from < to {
        let (low, high) = arrays.split_at_mut(to);
        copy(&low[from], sources, &mut high[0], targets, cut);
    } else {
        let (low, high) = arrays.split_at_mut(from);
        copy(&high[0], sources, &mut low[to], targets, cut);
    }
}
