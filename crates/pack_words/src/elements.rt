//! The elements of a whole region: into the accumulator, and out of it.

ghost use Rattle.std.specs.Prelude.{◌≡◌, ◌<◌, ◌≤◌, ◌+◌, ◌*◌, ◌/◌, ◌%◌, [], ◌∷◌, length, map, take, slice_index_or, slice_set};
ghost use Rattle.pack_words.specs.declared.rank_op.RankOp.TheVariants.{StoreAcc};
ghost use Rattle.pack_words.specs.LocalCells.{IsLocalCells, zeros};
ghost use Rattle.pack_words.specs.Packing.{IsInArray};
ghost use Rattle.pack_words.specs.RankOps.{RankState, size_of, AreInArray, CanDoIn, rank_acted};
ghost use Rattle.pack_words.specs.WholeRegions.{IsWhole, whole_words, with_whole_words};
ghost use Rattle.pack_words.specs.Accumulators.{loaded_with};
ghost use Rattle.pack_words.specs.Coordinates.{written_word, HasColumns};

use crate::coords::Coords;
use crate::local_array::LocalArray;
use crate::region::Region;
use crate::written::{Written, word_of};
use fold_ops::Held;

// The local row and column of the region's `k`-th element, by columns.
#[inline]
fn nth_place(region: &Region, k: u32) -> (u32, u32)
    requires element { k < region.now.rows * region.now.cols }
    requires rows { region.now.li + region.now.rows ≤ 4294967295 }
    requires columns { region.now.lj + region.now.cols ≤ 4294967295 }
    ensures row { result.0 ≡ region.now.li + k % region.now.rows }
    ensures column { result.1 ≡ region.now.lj + k / region.now.rows }
    ensures row_within { result.0 < region.now.li + region.now.rows }
    ensures column_within { result.1 < region.now.lj + region.now.cols }
{
    (region.li + k % region.rows, region.lj + k / region.rows)
}

// The region's elements, by columns and each with the place, as the first of the accumulator.
fn load_elements(array: &LocalArray, region: &Region, place: u32, held: &mut [Held])
    requires whole { IsWhole region.now }
    requires limits { IsLocalCells array.now }
    requires array { IsInArray array.now region.now }
    requires room { region.now.rows * region.now.cols ≤ length held.old }
    ensures { held.new ≡ loaded_with (whole_words region.now array.now) place (region.now.rows * region.now.cols) held.old }
{
    for k in 0..region.rows * region.cols {
        let (i, j) = nth_place(region, k);
        let value = array.get(i, j);
        held[k as usize] = Held { value, place };
    }
}

/// The elements of a region of one of a rank's arrays.
pub fn load(arrays: &[LocalArray], array: u32, region: &Region, place: u32, held: &mut [Held])
    requires whole { IsWhole region.now }
    requires array { AreInArray (map size_of arrays.now) array (region.now ∷ []) }
    requires room { region.now.rows * region.now.cols ≤ length held.old }
    ensures { held.new ≡ loaded_with (whole_words region.now (slice_index_or arrays.now array (zeros 1 0))) place
        (region.now.rows * region.now.cols) held.old }
{
    let _lead = arrays[array as usize].lld();
    load_elements(&arrays[array as usize], region, place, held);
}

// What is written of the first elements of the accumulator, to the region's elements, by columns.
fn store_elements(held: &[Held], written: &Written, array: &mut LocalArray, region: &Region)
    requires whole { IsWhole region.now }
    requires limits { IsLocalCells array.old }
    requires array { IsInArray array.old region.now }
    requires room { region.now.rows * region.now.cols ≤ length held.now }
    requires columns { HasColumns written.now }
    ensures { array.new ≡ with_whole_words region.now
        (map (written_word written.now) (take (region.now.rows * region.now.cols) held.now)) array.old }
{
    for k in 0..region.rows * region.cols {
        let (i, j) = nth_place(region, k);
        array.set(i, j, word_of(written, held[k as usize]));
    }
}

// The same into one array of a rank.
fn store_in(
    held: &[Held],
    written: &Written,
    arrays: &mut [LocalArray],
    array: u32,
    region: &Region,
)
    requires whole { IsWhole region.now }
    requires array { AreInArray (map size_of arrays.old) array (region.now ∷ []) }
    requires room { region.now.rows * region.now.cols ≤ length held.now }
    requires columns { HasColumns written.now }
    ensures after { arrays.new ≡ slice_set arrays.old array (with_whole_words region.now
        (map (written_word written.now) (take (region.now.rows * region.now.cols) held.now))
        (slice_index_or arrays.old array (zeros 1 0))) }
    ensures sizes { map size_of arrays.new ≡ map size_of arrays.old }
{
    let _lead = arrays[array as usize].lld();
    store_elements(held, written, &mut arrays[array as usize], region);
}

/// The values of the accumulator into the region of an array, and where asked the coordinates of the members that held
/// them into the first rows and columns of two other arrays.
pub fn store(
    held: &[Held],
    arrays: &mut [LocalArray],
    array: u32,
    region: &Region,
    coords: &Option<Coords>,
)
    requires can { CanDoIn (map size_of arrays.old) (StoreAcc array region.now coords.now) }
    requires room { region.now.rows * region.now.cols ≤ length held.now }
    ensures { let before : RankState = record { arrays = arrays.old; held = held.now } in
        arrays.new ≡ (rank_acted before (StoreAcc array region.now coords.now)).arrays }
{
    store_in(held, &Written::Value, arrays, array, region);
    if let Some(coords) = coords {
        let corner = Region {
            li: 0,
            lj: 0,
            rows: region.rows,
            cols: region.cols,
            i0: 0,
            j0: 0,
        };
        store_in(held, &Written::RowOf(*coords), arrays, coords.ra, &corner);
        store_in(
            held,
            &Written::ColumnOf(*coords),
            arrays,
            coords.ca,
            &corner,
        );
    }
}
