//! What moves require, looked at as a test runs.

ghost use Rattle.std.specs.Prelude.{◌≡◌, IsTrue};
ghost use Rattle.pack_words.specs.Packing.{AllInArray, IsInCut, IsInShape};
ghost use Rattle.pack_words.specs.RankOps.{AreMoved};

use pack_words::{Cut, LocalArray, Region, Regions};

const MOST: u64 = 1 << 26;

// Whether the region lies in the cut.
fn is_in_cut(region: &Region, cut: &Cut) -> bool
    ensures { IsTrue result → IsInCut cut.now region.now }
{
    region.i0 as u64 + region.rows as u64 <= cut.m as u64
        && region.j0 as u64 + region.cols as u64 <= cut.n as u64
}

/// Whether the regions lie in the cut and have at most 2^26 elements together.
pub fn are_moved(regions: &Regions, cut: &Cut) -> bool
    ensures { IsTrue result → AreMoved cut.now regions.now }
{
    let mut area: u64 = 0;
    let mut walk = regions.walk();
    while let Some(region) = walk.next() {
        if !is_in_cut(&region, cut) {
            return false;
        }
        let one = region.cols as u64 * region.rows as u64;
        if one > MOST - area {
            return false;
        }
        area += one;
    }
    true
}

// Whether the region lies in an array of that size.
fn is_in_shape(region: &Region, lld: u32, cols: u32) -> bool
    ensures { IsTrue result → IsInShape lld cols region.now }
{
    region.li as u64 + region.rows as u64 <= lld as u64
        && region.lj as u64 + region.cols as u64 <= cols as u64
}

/// Whether the regions lie in the array.
pub fn in_array(array: &LocalArray, regions: &Regions) -> bool
    ensures { IsTrue result → AllInArray array.now regions.now }
{
    let lld = array.lld();
    let cols = array.cols();
    let mut walk = regions.walk();
    while let Some(region) = walk.next() {
        if !is_in_shape(&region, lld, cols) {
            return false;
        }
    }
    true
}
