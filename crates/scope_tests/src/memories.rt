//! Memories of all ranks with arrays of the shapes, filled by a formula, and room for a plan.

ghost use Rattle.std.specs.Prelude.{◌≡◌, ◌<◌, ◌≤◌, ◌*◌, ℕ, length, map, IfOk};
ghost use Rattle.std.specs.List.{range_with_len};
ghost use Rattle.pack_words.specs.LocalCells.{IsLocalCells};
ghost use Rattle.pack_words.specs.GridShapes.{shape_of, whole_measure, measures_of, IsSize, HasShapes};
ghost use Rattle.pack_words.specs.GridState.{scratch_needed, HasRoom};
ghost use Rattle.pack_words.specs.GridPlans.{first_grid};

use crate::trouble::Trouble;
use msg_core::Plan;
use pack_words::{LocalArray, RankMem, RankOp, Shapes};
use scope_ops::scratch_of;
use std::alloc::Global;

/// The word at row i, column j (from 0) is that of the rank, or 0 from rank 6 on, and `row` times i and `column` times
/// j more, wrapping.
#[derive(Clone, Copy)]
pub struct Fill {
    pub ranks: [i32; 6],
    pub row: i32,
    pub column: i32,
}

impl Fill {
    // The word at a place.
    fn word(&self, rank: u32, i: u32, j: u32) -> i32 {
        let first = if rank < 6 {
            self.ranks[rank as usize]
        } else {
            0
        };
        first
            .wrapping_add(self.row.wrapping_mul(i.cast_signed()))
            .wrapping_add(self.column.wrapping_mul(j.cast_signed()))
    }
}

// One column of an array.
fn fill_column(array: &mut LocalArray, fill: &Fill, rank: u32, column: u32)
    requires column { column < array.old.cols }
    requires array { IsLocalCells array.old }
    ensures lead { array.new.lld ≡ array.old.lld }
    ensures columns { array.new.cols ≡ array.old.cols }
    ensures array { IsLocalCells array.new }
{
    for row in 0..array.lld() {
        array.set(row, column, fill.word(rank, row, column));
    }
}

// An array of that size.
fn filled(alloc: Global, size: (u32, u32), fill: &Fill, rank: u32) -> Result<LocalArray, Trouble>
    requires { IsSize size }
    ensures lead { IfOk result (λ a. a.lld ≡ size.0) }
    ensures columns { IfOk result (λ a. a.cols ≡ size.1) }
    ensures array { IfOk result (λ a. IsLocalCells a) }
{
    let Ok(mut array) = LocalArray::new(alloc, size.0, size.1) else {
        return Err(Trouble::Memory);
    };
    for column in 0..size.1 {
        fill_column(&mut array, fill, rank, column);
    }
    Ok(array)
}

// The arrays of a rank.
fn arrays_of(
    alloc: Global,
    shapes: &Shapes,
    count: u32,
    fill: &Fill,
    rank: u32,
) -> Result<Vec<LocalArray>, Trouble>
    requires count { count ≡ shapes.now.count }
    requires rank { rank < shapes.now.ranks }
    ensures { IfOk result (λ arrays. measures_of arrays.items ≡
        map (λ a. whole_measure (shape_of shapes.now rank a)) (range_with_len 0 shapes.now.count)) }
{
    let mut arrays = Vec::new(alloc);
    for array in 0..count {
        let made = filled(alloc, shapes.of(rank, array), fill, rank)?;
        arrays.push(made)?;
    }
    Ok(arrays)
}

/// The memories of all ranks.
pub fn all_memories(
    alloc: Global,
    plan: &Plan<RankOp>,
    shapes: &Shapes,
    count: u32,
    fill: &Fill,
) -> Result<Vec<RankMem>, Trouble>
    requires count { count ≡ shapes.now.count }
    requires ranks { shapes.now.ranks ≡ plan.now.ranks }
    ensures shaped { IfOk result (λ nodes. HasShapes shapes.now (first_grid nodes.items)) }
    ensures room { IfOk result (λ nodes. HasRoom plan.now.steps nodes.items) }
    ensures ranks { IfOk result (λ nodes. length nodes.items ≡ plan.now.ranks) }
{
    let mut nodes = Vec::new(alloc);
    for rank in 0..shapes.ranks() {
        let arrays = arrays_of(alloc, shapes, count, fill, rank)?;
        let node = RankMem::new(alloc, arrays, scratch_of(plan, rank))?;
        nodes.push(node)?;
    }
    Ok(nodes)
}
