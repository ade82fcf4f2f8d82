//! A matrix in pieces.
ghost use Rattle.std.specs.Prelude.{◌≡◌, ◌<◌, ◌≤◌, ◌/◌, ◌%◌, ◌*◌, [], length, map, take, drop, max, slice_index_or, IfOk};
ghost use Rattle.std.specs.List.{range_with_len};
ghost use Rattle.index_tools.specs.Spread.{spread};
ghost use Rattle.mm_text.specs.Loading.{matrix_of};
ghost use Rattle.piece_file.specs.PieceView.{piece_view};
ghost use Rattle.piece_moves.specs.DistributionView.{distribution_view};
ghost use Rattle.spread_cells.specs.Spreading.{owned, word_at, array_of};
ghost use Rattle.spread_cells.specs.Owned.{lists_of, owned_by};
ghost use Rattle.drawn_jobs.specs.Dealing.{pieces_of, piece_at, cells_at};

use crate::cells::array_from;
use crate::rows::push_rows;
use mm_text::Whole;
use pack_words::LocalArray;
use piece_file::Piece;
use piece_moves::Distribution;
use spread_cells::owned_lists;
use std::alloc::{AllocError, Global};

// One of the lists.
fn list_at(lists: &[Vec<u32>], i: u32) -> &[u32]
    requires { i < length lists.now }
    ensures { result.now ≡ slice_index_or (lists_of lists.now) i [] }
{
    lists[i as usize].as_slice()
}

// Column `j` of the matrix.
#[tactic(auto, using(crate::proofs::PartLaws::column_inside, crate::proofs::PartLaws::column_long))]
fn column_at(whole: &Whole, j: u32) -> &[i32]
    requires { j < whole.now.columns }
    ensures words { result.now ≡ take whole.now.rows (drop (j * whole.now.rows) whole.now.words.items) }
    ensures len { length result.now ≡ whole.now.rows }
{
    let start = j as usize * whole.rows as usize;
    &whole.words[start..start + whole.rows as usize]
}

// The words of the rows of process row `p` in the columns of process column `q`, which are listed, column by column.
#[tactic(auto, using(crate::proofs::PartLaws::part_begins, crate::proofs::PartLaws::part_more, crate::proofs::PartLaws::column_low))]
fn part_words(
    alloc: Global,
    whole: &Whole,
    to: &Distribution,
    p: u32,
    q: u32,
    columns: &[u32],
    count: usize,
) -> Result<Vec<i32>, AllocError>
    requires process { p < to.now.nprow }
    requires few { to.now.nprow ≤ 64 }
    requires columns { columns.now ≡ owned (spread to.now.nb 0 to.now.npcol) q whole.now.columns }
    ensures { IfOk result (λ v. v.items ≡ map
        (word_at (matrix_of whole.now) (owned (spread to.now.mb 0 to.now.nprow) p whole.now.rows) columns.now)
        (range_with_len 0 (length columns.now * length (owned (spread to.now.mb 0 to.now.nprow) p whole.now.rows)))) }
{
    let mut words = Vec::with_capacity(alloc, count)?;
    for j in columns {
        push_rows(column_at(whole, *j), to, p, &mut words)?;
    }
    Ok(words)
}

// The words of the array of process (`p`, `q`): zeros where it has no row or no column of the matrix.
#[tactic(auto, using(crate::proofs::PartLaws::filled))]
fn piece_words(
    alloc: Global,
    whole: &Whole,
    to: &Distribution,
    p: u32,
    q: u32,
    columns: &[u32],
    count: usize,
) -> Result<Vec<i32>, AllocError>
    requires process { p < to.now.nprow }
    requires few { to.now.nprow ≤ 64 }
    requires columns { columns.now ≡ owned (spread to.now.nb 0 to.now.npcol) q whole.now.columns }
    requires count { count ≡ (array_of (matrix_of whole.now) (owned (spread to.now.mb 0 to.now.nprow) p whole.now.rows) columns.now).rows *
        (array_of (matrix_of whole.now) (owned (spread to.now.mb 0 to.now.nprow) p whole.now.rows) columns.now).columns }
    ensures { IfOk result (λ v. v.items ≡
        (array_of (matrix_of whole.now) (owned (spread to.now.mb 0 to.now.nprow) p whole.now.rows) columns.now).values) }
{
    let mut words = part_words(alloc, whole, to, p, q, columns, count)?;
    words.resize(count, 0)?;
    Ok(words)
}

// The columns of piece `k`, by rows of the grid; the lists are those of the process columns.
fn columns_of<'a>(whole: &Whole, to: &Distribution, columns: &'a [Vec<u32>], k: u32) -> &'a [u32]
    requires piece { k < to.now.nprow * to.now.npcol }
    requires columns { lists_of columns.now ≡ owned_by (spread to.now.nb 0 to.now.npcol) whole.now.columns to.now.npcol }
    ensures columns { result.now ≡ owned (spread to.now.nb 0 to.now.npcol) (k % to.now.npcol) whole.now.columns }
    ensures few { length result.now ≤ whole.now.columns }
{
    list_at(columns, k % to.npcol)
}

// The columns of a local array that has so many of the matrix.
fn width_of(columns: &[u32]) -> u32
    requires { length columns.now ≤ 2000 }
    ensures { result ≡ max 1 (length columns.now) }
{
    (columns.len() as u32).max(1)
}

// The array of piece `k`, by rows of the grid, of that leading dimension.
fn piece_array(
    alloc: Global,
    whole: &Whole,
    to: &Distribution,
    columns: &[Vec<u32>],
    k: u32,
    lld: u32,
) -> Result<LocalArray, AllocError>
    requires rows_fit { whole.now.rows ≤ 2000 }
    requires columns_fit { whole.now.columns ≤ 2000 }
    requires piece { k < to.now.nprow * to.now.npcol }
    requires columns { lists_of columns.now ≡ owned_by (spread to.now.nb 0 to.now.npcol) whole.now.columns to.now.npcol }
    requires lead { lld ≡ (cells_at (distribution_view to.now) (matrix_of whole.now) k).rows }
    ensures lead { IfOk result (λ a. a.lld ≡ lld) }
    ensures columns { IfOk result (λ a. a.cols ≡ (cells_at (distribution_view to.now) (matrix_of whole.now) k).columns) }
    ensures words { IfOk result (λ a. a.words ≡ (cells_at (distribution_view to.now) (matrix_of whole.now) k).values) }
{
    let across = columns_of(whole, to, columns, k);
    let width = width_of(across);
    let count = lld as usize * width as usize;
    let words = piece_words(alloc, whole, to, k / to.npcol, k % to.npcol, across, count)?;
    Ok(array_from(lld, width, words))
}

// Piece `k`, by rows of the grid.
fn deal_piece(
    alloc: Global,
    whole: &Whole,
    to: &Distribution,
    columns: &[Vec<u32>],
    k: u32,
) -> Result<Piece, AllocError>
    requires rows_fit { whole.now.rows ≤ 2000 }
    requires columns_fit { whole.now.columns ≤ 2000 }
    requires piece { k < to.now.nprow * to.now.npcol }
    requires columns { lists_of columns.now ≡ owned_by (spread to.now.nb 0 to.now.npcol) whole.now.columns to.now.npcol }
    ensures { IfOk result (λ p. piece_view p ≡ piece_at (distribution_view to.now) (matrix_of whole.now) k) }
{
    let head = to.head(whole.rows, whole.columns, k);
    let cells = piece_array(alloc, whole, to, columns, k, head.lld)?;
    Ok(Piece { head, cells })
}

/// The pieces of the matrix over the distribution, by rows of its grid.
#[tactic(auto, using(crate::proofs::ListLaws::mapped_more))]
pub(crate) fn deal(
    alloc: Global,
    whole: &Whole,
    to: &Distribution,
) -> Result<Vec<Piece>, AllocError>
    requires rows_fit { whole.now.rows ≤ 2000 }
    requires columns_fit { whole.now.columns ≤ 2000 }
    ensures { IfOk result (λ v. map piece_view v.items ≡ pieces_of (distribution_view to.now) (matrix_of whole.now)) }
{
    let columns = owned_lists(alloc, whole.columns, to.nb, 0, to.npcol)?;
    let count = to.nprow * to.npcol;
    let mut pieces = Vec::with_capacity(alloc, count as usize)?;
    for k in 0..count {
        pieces.push(deal_piece(alloc, whole, to, &columns, k)?)?;
    }
    Ok(pieces)
}
