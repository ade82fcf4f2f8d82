//! Memories of all ranks with arrays of the shapes, filled by formulas.

ghost use Rattle.std.specs.Prelude.{◌≡◌, ◌<◌, length, map, IfOk};
ghost use Rattle.std.specs.List.{range_with_len};
ghost use Rattle.pack_words.specs.LocalCells.{IsLocalCells};
ghost use Rattle.pack_words.specs.GridShapes.{shape_of, whole_measure, measures_of, IsSize, HasShapes};
ghost use Rattle.pack_words.specs.GridPlans.{first_grid};

use pack_words::{LocalArray, RankMem, Shapes};
use std::alloc::Global;
use std::test::Fail;

/// The word of row i and column j, from 0, of rank r: `first`, and `rank` times r, `row` times i and `column` times j
/// more, wrapping.
#[derive(Clone, Copy, Debug)]
pub struct Fill {
    pub first: i32,
    pub rank: i32,
    pub row: i32,
    pub column: i32,
}

impl Fill {
    /// The word at a place.
    pub fn word(&self, rank: u32, i: u32, j: u32) -> i32 {
        self.first
            .wrapping_add(self.rank.wrapping_mul(rank.cast_signed()))
            .wrapping_add(self.row.wrapping_mul(i.cast_signed()))
            .wrapping_add(self.column.wrapping_mul(j.cast_signed()))
    }
}

// One column of an array.
fn fill_column(array: &mut LocalArray, fill: &Fill, rank: u32, column: u32)
    requires column { column < array.old.cols }
    requires array { IsLocalCells array.old }
    ensures lead { array.new.lld ≡ array.old.lld }
    ensures columns { array.new.cols ≡ array.old.cols }
    ensures array { IsLocalCells array.new }
{
    for row in 0..array.lld() {
        array.set(row, column, fill.word(rank, row, column));
    }
}

// An array of that size.
fn filled(alloc: Global, size: (u32, u32), fill: &Fill, rank: u32) -> Result<LocalArray, Fail>
    requires { IsSize size }
    ensures lead { IfOk result (λ a. a.lld ≡ size.0) }
    ensures columns { IfOk result (λ a. a.cols ≡ size.1) }
    ensures array { IfOk result (λ a. IsLocalCells a) }
{
    let Ok(mut array) = LocalArray::new(alloc, size.0, size.1) else {
        return Err(Fail::from("no array"));
    };
    for column in 0..size.1 {
        fill_column(&mut array, fill, rank, column);
    }
    Ok(array)
}

// The arrays of a rank, filled one by one.
fn arrays_of(
    alloc: Global,
    shapes: &Shapes,
    fills: &[Fill],
    count: u32,
    rank: u32,
) -> Result<Vec<LocalArray>, Fail>
    requires count { count ≡ shapes.now.count }
    requires fills { length fills.now ≡ count }
    requires rank { rank < shapes.now.ranks }
    ensures { IfOk result (λ arrays. measures_of arrays.items ≡
        map (λ a. whole_measure (shape_of shapes.now rank a)) (range_with_len 0 shapes.now.count)) }
{
    let mut arrays = Vec::new(alloc);
    for array in 0..count {
        let made = filled(alloc, shapes.of(rank, array), &fills[array as usize], rank)?;
        arrays.push(made)?;
    }
    Ok(arrays)
}

/// The memories of all ranks, without accumulators: a formula for each array.
pub fn all_memories(
    alloc: Global,
    shapes: &Shapes,
    fills: &[Fill],
    count: u32,
) -> Result<Vec<RankMem>, Fail>
    requires count { count ≡ shapes.now.count }
    requires fills { length fills.now ≡ count }
    ensures { IfOk result (λ nodes. HasShapes shapes.now (first_grid nodes.items)) }
{
    let mut nodes = Vec::new(alloc);
    for rank in 0..shapes.ranks() {
        let arrays = arrays_of(alloc, shapes, fills, count, rank)?;
        let node = RankMem::new(alloc, arrays, 0)?;
        nodes.push(node)?;
    }
    Ok(nodes)
}
