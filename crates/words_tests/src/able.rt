//! Whether a rank can do an operation, looked at as a test runs.

ghost use Rattle.std.specs.Prelude.{◌≡◌, ◌≤◌, ◌<◌, ◌*◌, ◌^◌, IsTrue, IfSome, [], ◌∷◌, length, take};
ghost use Rattle.std.specs.List.{AllByRecursion};
ghost use Rattle.pack_words.specs.Packing.{AreApart, AllApart, IsAlike, AllAlike};
ghost use Rattle.pack_words.specs.WholeRegions.{IsWhole};
ghost use Rattle.pack_words.specs.RankOps.{shapes, AreMoved, AreInArray, AreCoords, CanStoreCoords, CanDo};

use crate::checks::{are_moved, in_array};
use pack_words::{Coords, RankMem, RankOp, Region, Regions};
use std::alloc::Global;

/// The number of elements of each accumulator.
pub const ROOM: u32 = 2;

// Whether they share no place.
fn are_apart(r: &Region, t: &Region) -> bool
    ensures { IsTrue result → AreApart r.now t.now }
{
    r.li as u64 + r.rows as u64 <= t.li as u64
        || t.li as u64 + t.rows as u64 <= r.li as u64
        || r.lj as u64 + r.cols as u64 <= t.lj as u64
        || t.lj as u64 + t.cols as u64 <= r.lj as u64
}

// The regions as a list of their own: None out of memory.
fn listed(alloc: Global, regions: &Regions) -> Option<Vec<Region>>
    ensures { IfSome result (λ list. list.items ≡ regions.now) }
{
    let mut list = Vec::new(alloc);
    let mut walk = regions.walk();
    while let Some(region) = walk.next() {
        list.push(region).ok()?;
    }
    Some(list)
}

// Whether each of the first `count` shares no place with the region.
fn leave_out(regions: &[Region], count: usize, region: &Region) -> bool
    requires { count ≤ length regions.now }
    ensures { IsTrue result →
        AllByRecursion (λ r. AreApart r region.now) (take count regions.now) }
{
    for k in 0..count {
        if !are_apart(&regions[k], region) {
            return false;
        }
    }
    true
}

// Whether no two of them share a place.
fn no_two_meet(regions: &[Region]) -> bool
    ensures { IsTrue result → AllApart regions.now }
{
    for k in 0..regions.len() {
        if !leave_out(regions, k, &regions[k]) {
            return false;
        }
    }
    true
}

// Whether no two of the regions share a place: false also out of memory.
fn all_apart(alloc: Global, regions: &Regions) -> bool
    ensures { IsTrue result → AllApart regions.now }
{
    let Some(list) = listed(alloc, regions) else {
        return false;
    };
    no_two_meet(&list)
}

// Whether they have one size and one place in the cut.
fn is_alike(r: &Region, t: &Region) -> bool
    ensures { IsTrue result → IsAlike r.now t.now }
{
    r.rows == t.rows && r.cols == t.cols && r.i0 == t.i0 && r.j0 == t.j0
}

// Whether that holds of each and the one at its place in the other list.
fn each_is_alike(sources: &[Region], targets: &[Region]) -> bool
    ensures { IsTrue result → AllAlike sources.now targets.now }
{
    if sources.len() != targets.len() {
        return false;
    }
    for k in 0..sources.len() {
        if !is_alike(&sources[k], &targets[k]) {
            return false;
        }
    }
    true
}

// Whether each region and the one at its place in the other list have one size and one place in the cut: false also out
// of memory.
fn all_alike(alloc: Global, sources: &Regions, targets: &Regions) -> bool
    ensures { IsTrue result → AllAlike sources.now targets.now }
{
    let Some(from) = listed(alloc, sources) else {
        return false;
    };
    let Some(to) = listed(alloc, targets) else {
        return false;
    };
    each_is_alike(&from, &to)
}

// Whether the regions lie in the rank's array of that number.
#[tactic(auto, using(crate::proofs::Lying::in_shapes))]
fn is_there(node: &RankMem, array: u32, regions: &Regions) -> bool
    ensures { IsTrue result → AreInArray (shapes node.now) array regions.now }
{
    let Some(found) = node.array(array) else {
        return false;
    };
    in_array(found, regions)
}

// Whether the region is a whole matrix that the accumulator has room for, and lies in the array.
fn is_whole(node: &RankMem, array: u32, region: Region) -> bool
    ensures whole { IsTrue result → IsWhole region }
    ensures array { IsTrue result → AreInArray (shapes node.now) array (region ∷ []) }
    ensures room { IsTrue result → region.rows * region.cols ≤ 2 }
{
    region.i0 == 0
        && region.j0 == 0
        && region.rows as u64 * region.cols as u64 <= ROOM as u64
        && is_there(node, array, &Regions::one(region))
}

// Whether the coordinates of the region's elements can be stored.
fn can_store(node: &RankMem, array: u32, region: &Region, coords: &Option<Coords>) -> bool
    ensures columns { IsTrue result → AreCoords coords.now }
    ensures arrays { IsTrue result → CanStoreCoords (shapes node.now) array region.now coords.now }
{
    let Some(coords) = coords else {
        return true;
    };
    let corner = Region {
        li: 0,
        lj: 0,
        rows: region.rows,
        cols: region.cols,
        i0: 0,
        j0: 0,
    };
    coords.npcol >= 1
        && array != coords.ra
        && array != coords.ca
        && coords.ra != coords.ca
        && is_there(node, coords.ra, &Regions::one(corner))
        && is_there(node, coords.ca, &Regions::one(corner))
}

/// Whether a rank with an accumulator of two elements can do the operation: false also out of memory.
#[tactic(auto, using(crate::proofs::Lying::once))]
pub fn can_do(alloc: Global, node: &RankMem, op: &RankOp) -> bool
    requires { length node.now.held ≡ 2 }
    ensures { IsTrue result → CanDo node.now op.now }
{
    match op {
        RankOp::Put {
            to: _,
            array,
            regions,
            cut,
        } => are_moved(regions, cut) && is_there(node, *array, regions),
        RankOp::Get {
            from: _,
            array,
            regions,
            cut,
        } => are_moved(regions, cut)
            && is_there(node, *array, regions)
            && all_apart(alloc, regions),
        RankOp::Copy {
            from_array,
            from_regions,
            to_array,
            to_regions,
            cut,
        } => {
            let (from_regions, to_regions) = (from_regions.regions(), to_regions.regions());
            are_moved(from_regions, cut)
                && are_moved(to_regions, cut)
                && is_there(node, *from_array, from_regions)
                && is_there(node, *to_array, to_regions)
                && all_apart(alloc, to_regions)
                && all_alike(alloc, from_regions, to_regions)
                && from_array != to_array
        }
        RankOp::LoadAcc {
            array,
            region,
            place: _,
        } => is_whole(node, *array, *region),
        RankOp::PutAcc {
            to: _,
            len,
            pairs: _,
        } => *len <= ROOM,
        RankOp::JoinAcc {
            from: _,
            len,
            fold: _,
        } => *len <= ROOM,
        RankOp::GetAcc {
            from: _,
            len,
            pairs: _,
        } => *len <= ROOM,
        RankOp::StoreAcc {
            array,
            region,
            coords,
        } => is_whole(node, *array, *region) && can_store(node, *array, region, coords),
        RankOp::Pulse { peer: _, sends: _ } => true,
    }
}
