//! The memories of the ranks before a move.
ghost use Rattle.std.specs.Prelude.{◌≡◌, ◌≤◌, ◌*◌, ◌^◌, ◌∷◌, [], None, length, map, slice_index_or, IfOk};
ghost use Rattle.pack_words.specs.ArrayRefusal.{array_refusal};
ghost use Rattle.std.specs.List.{range_with_len};
ghost use Rattle.pack_words.specs.LocalCells.{zeros};
ghost use Rattle.pack_words.specs.GridState.{arrays_held};
ghost use Rattle.piece_grammar.specs.Head.{IsHead};
ghost use Rattle.piece_file.specs.HeadView.{head_view};
ghost use Rattle.piece_file.specs.PieceView.{piece_view};
ghost use Rattle.piece_moves.specs.DistributionView.{distribution_view};
ghost use Rattle.piece_moves.specs.PieceMove.{array_of, words_over, zeros_for};

use crate::distribution::Distribution;
use index_tools::numroc;
use pack_words::{ArrayErr, LocalArray, RankMem};
use piece_file::{Head, Piece};
use std::alloc::{AllocError, Global};

// An array of zeros.
fn zeros_of(alloc: Global, lld: u32, cols: u32) -> Result<LocalArray, AllocError>
    requires { array_refusal lld cols ≡ None }
    ensures { IfOk result (λ a. a ≡ zeros lld cols) }
{
    match LocalArray::new(alloc, lld, cols) {
        Ok(array) => Ok(array),
        Err(ArrayErr::NoMemory) => Err(AllocError),
        Err(_) => unreachable!(),
    }
}

/// The local arrays of pieces, in their order.
#[tactic(auto, using(crate::proofs::ListLaws::arrays_more))]
pub fn arrays_of(alloc: Global, pieces: Vec<Piece>) -> Result<Vec<LocalArray>, AllocError>
    ensures { IfOk result (λ v. v.items ≡ map array_of (map piece_view pieces.items)) }
{
    let mut arrays = Vec::with_capacity(alloc, pieces.len())?;
    for piece in pieces {
        let Piece { head: _, cells } = piece;
        arrays.push(cells)?;
    }
    Ok(arrays)
}

// Arrays without columns for the ranks after them.
fn padded(
    alloc: Global,
    mut arrays: Vec<LocalArray>,
    ranks: u32,
) -> Result<Vec<LocalArray>, AllocError>
    requires few { length arrays.items ≤ ranks }
    ensures { IfOk result (λ v. v.items ≡ map (λ r. slice_index_or arrays.items r (zeros 1 0))
        (range_with_len 0 ranks)) }
{
    for r in arrays.len() as u32..ranks {
        arrays.push(zeros_of(alloc, 1, 0)?)?;
    }
    Ok(arrays)
}

// The array that rank `r` has for what is moved to it.
fn zeros_at(
    alloc: Global,
    first: &Head,
    to: &Distribution,
    r: usize,
) -> Result<LocalArray, AllocError>
    requires head { IsHead (head_view first.now) }
    requires few { words_over first.now.m first.now.n (distribution_view to.now) (to.now.nprow * to.now.npcol) ≤ 2 ^ 26 }
    ensures { IfOk result (λ a. a ≡ zeros_for (head_view first.now) (distribution_view to.now) r) }
{
    if r >= (to.nprow * to.npcol) as usize {
        return zeros_of(alloc, 1, 0);
    }
    let head = to.head(first.m, first.n, r as u32);
    let columns = numroc(first.n, to.nb, head.pcol, 0, to.npcol).max(1);
    zeros_of(alloc, head.lld, columns)
}

// The memory of a rank with these two arrays.
fn memory(alloc: Global, source: LocalArray, target: LocalArray) -> Result<RankMem, AllocError>
    ensures arrays { IfOk result (λ m. arrays_held m ≡ source ∷ target ∷ []) }
{
    let mut arrays = Vec::with_capacity(alloc, 2)?;
    arrays.push(source)?;
    arrays.push(target)?;
    RankMem::new(alloc, arrays, 0)
}

// The memories of ranks with these arrays.
fn nodes_of(
    alloc: Global,
    sources: Vec<LocalArray>,
    first: &Head,
    to: &Distribution,
) -> Result<Vec<RankMem>, AllocError>
    requires head { IsHead (head_view first.now) }
    requires few { words_over first.now.m first.now.n (distribution_view to.now) (to.now.nprow * to.now.npcol) ≤ 2 ^ 26 }
    ensures { IfOk result (λ v. map arrays_held v.items ≡ map (λ r. slice_index_or sources.items r (zeros 1 0) ∷
        zeros_for (head_view first.now) (distribution_view to.now) r ∷ []) (range_with_len 0 (length sources.items))) }
{
    let mut nodes = Vec::with_capacity(alloc, sources.len())?;
    for source in sources {
        let r = nodes.len();
        let target = zeros_at(alloc, first, to, r)?;
        nodes.push(memory(alloc, source, target)?)?;
    }
    Ok(nodes)
}

/// The memories of all ranks before the move.
pub(crate) fn memories(
    alloc: Global,
    pieces: Vec<Piece>,
    first: &Head,
    to: &Distribution,
    ranks: u32,
) -> Result<Vec<RankMem>, AllocError>
    requires head { IsHead (head_view first.now) }
    requires pieces { length pieces.items ≤ ranks }
    requires few { words_over first.now.m first.now.n (distribution_view to.now) (to.now.nprow * to.now.npcol) ≤ 2 ^ 26 }
    ensures { IfOk result (λ v. map arrays_held v.items ≡ map (λ r. slice_index_or
        (map array_of (map piece_view pieces.items)) r (zeros 1 0) ∷
        zeros_for (head_view first.now) (distribution_view to.now) r ∷ []) (range_with_len 0 ranks)) }
{
    let arrays = arrays_of(alloc, pieces)?;
    let sources = padded(alloc, arrays, ranks)?;
    let nodes = nodes_of(alloc, sources, first, to)?;
    Ok(nodes)
}
