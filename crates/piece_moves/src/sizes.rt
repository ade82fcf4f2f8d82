//! The sizes of the arrays of all ranks.
ghost use Rattle.std.specs.Prelude.{◌≡◌, ◌≤◌, ◌++◌, length, map, IfOk};
ghost use Rattle.std.specs.List.{AllByRecursion};
ghost use Rattle.pack_words.specs.GridShapes.{IsSize};
ghost use Rattle.piece_moves.specs.Sizes.{size_in, AreWhole};

use pack_words::{RankMem, Shapes};
use std::alloc::{AllocError, Global};

// The leading dimension and the columns of a rank's array of that number; a rank without it has no columns.
fn size_at(node: &RankMem, array: u32) -> (u32, u32)
    ensures size { result ≡ size_in array node.now }
    ensures fits { IsSize result }
    ensures whole { AreWhole array node.now }
{
    match node.array(array) {
        Some(cells) => (cells.lld(), cells.cols()),
        None => (1, 0),
    }
}

// The sizes of the array of that number on all ranks.
fn sizes_of(alloc: Global, nodes: &[RankMem], array: u32) -> Result<Vec<(u32, u32)>, AllocError>
    ensures sizes { IfOk result (λ v. v.items ≡ map (size_in array) nodes.now) }
    ensures fit { IfOk result (λ v. AllByRecursion IsSize v.items) }
    ensures whole { IfOk result (λ v. AllByRecursion (AreWhole array) nodes.now) }
{
    let mut sizes = Vec::with_capacity(alloc, nodes.len())?;
    for node in nodes {
        sizes.push(size_at(node, array))?;
    }
    Ok(sizes)
}

/// The shapes of the two arrays of all ranks.
pub(crate) fn shapes_of(alloc: Global, nodes: &[RankMem]) -> Result<Shapes, AllocError>
    requires { length nodes.now ≤ 64 }
    ensures sizes { IfOk result (λ s. s ≡ record {
      ranks = length nodes.now;
      count = 2;
      sizes = map (size_in 0) nodes.now ++ map (size_in 1) nodes.now;
    }) }
    ensures sources { IfOk result (λ s. AllByRecursion (AreWhole 0) nodes.now) }
    ensures targets { IfOk result (λ s. AllByRecursion (AreWhole 1) nodes.now) }
{
    let mut shapes = Shapes::new(alloc, nodes.len() as u32)?;
    let sources = sizes_of(alloc, nodes, 0)?;
    let targets = sizes_of(alloc, nodes, 1)?;
    shapes.add(&sources)?;
    shapes.add(&targets)?;
    Ok(shapes)
}
