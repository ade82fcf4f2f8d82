//! Which words stand in arrays after a move, looked at element by element.

use crate::matrix::{Homes, Matrix};
use crate::memories::Fill;
use crate::trial::Case;
use pack_words::{Cut, Diag, LocalArray, RankMem, Shape, Uplo, selected};
use proc_grid::{Context, Contexts};
use std::alloc::Global;
use std::test::Fail;

// The shape of a case.
fn shape_of(letters: Option<(char, char)>) -> Shape {
    match letters {
        None => Shape::Ge,
        Some(('U', 'N')) => Shape::Tr(Uplo::Upper, Diag::N),
        Some(('U', _)) => Shape::Tr(Uplo::Upper, Diag::U),
        Some((_, 'N')) => Shape::Tr(Uplo::Lower, Diag::N),
        Some((_, _)) => Shape::Tr(Uplo::Lower, Diag::U),
    }
}

// The word at row `i` and column `j`, from 0, of an array of a rank.
fn word_at(nodes: &[RankMem], rank: u32, array: u32, i: u32, j: u32) -> Option<i32> {
    let held = match nodes.get(rank as usize) {
        Some(node) => node.array(array),
        None => None,
    };
    match held {
        Some(cells) if i < cells.lld() && j < cells.cols() => Some(cells.get(i, j)),
        _ => None,
    }
}

/// Whether an array of a rank has just these words, by columns.
pub fn has_words(nodes: &[RankMem], rank: u32, array: u32, words: &[i32]) -> bool {
    let held = match nodes.get(rank as usize) {
        Some(node) => node.array(array),
        None => None,
    };
    let Some(cells) = held else {
        return false;
    };
    let mut place = 0usize;
    for j in 0..cells.cols() {
        for i in 0..cells.lld() {
            match words.get(place) {
                Some(word) if *word == cells.get(i, j) => {}
                _ => return false,
            }
            place = place.wrapping_add(1);
        }
    }
    place == words.len()
}

// A matrix of a case with its grid and the homes of its elements.
#[derive(Drop)]
struct Placed<'a> {
    grid: &'a Context,
    homes: Homes,
    first: (u32, u32),
}

fn locate<'a>(
    alloc: Global,
    contexts: &'a Contexts,
    matrix: &Matrix,
    first: (u32, u32),
) -> Result<Placed<'a>, Fail> {
    let grid = contexts.get(i64::from(matrix.ctxt)).ok_or("a grid")?;
    let homes = matrix.homes(alloc, grid)?.ok_or("blocks")?;
    Ok(Placed { grid, homes, first })
}

impl Placed<'_> {
    // The rank of element (i, j) of the part, and its local row and column there.
    fn home(&self, i: u32, j: u32) -> Option<(u32, u32, u32)> {
        let (first_row, first_column) = self.first;
        let row = self.homes.rows.get(first_row.wrapping_add(i) as usize)?;
        let column = self
            .homes
            .columns
            .get(first_column.wrapping_add(j) as usize)?;
        let rank = self.grid.rank_at(row.0, column.0)?;
        Some((rank, row.1, column.1))
    }
}

// Whether the element (i, j) of the part has arrived in array `b`.
fn has_arrived(
    source: &Placed,
    target: &Placed,
    fill: &Fill,
    nodes: &[RankMem],
    b: u32,
    at: (u32, u32),
) -> bool {
    let Some((from, ai, aj)) = source.home(at.0, at.1) else {
        return false;
    };
    let Some((to, bi, bj)) = target.home(at.0, at.1) else {
        return false;
    };
    word_at(nodes, to, b, bi, bj) == Some(fill.word(from, ai, aj))
}

/// How many selected elements of the case stand in array `b` as A was filled with them, and how many there are.
pub fn arrived(
    alloc: Global,
    contexts: &Contexts,
    case: &Case,
    fill: &Fill,
    nodes: &[RankMem],
    b: u32,
) -> Result<(u32, u32), Fail> {
    let source = locate(alloc, contexts, &case.a, case.from)?;
    let target = locate(alloc, contexts, &case.b, case.to)?;
    let cut = Cut {
        shape: shape_of(case.letters),
        m: case.sizes.0,
        n: case.sizes.1,
    };
    let mut there = 0u32;
    let mut all = 0u32;
    for j in 0..cut.n {
        for i in 0..cut.m {
            if selected(&cut, i, j) {
                all = all.wrapping_add(1);
                if has_arrived(&source, &target, fill, nodes, b, (i, j)) {
                    there = there.wrapping_add(1);
                }
            }
        }
    }
    Ok((there, all))
}

// How many words of a rank's array are others than the formula's.
fn count_others(cells: &LocalArray, fill: &Fill, rank: u32) -> u32 {
    let mut others = 0u32;
    for j in 0..cells.cols() {
        for i in 0..cells.lld() {
            if cells.get(i, j) != fill.word(rank, i, j) {
                others = others.wrapping_add(1);
            }
        }
    }
    others
}

/// How many words of an array on all ranks, padding among them, are others than it was filled with.
pub fn changed(nodes: &[RankMem], array: u32, fill: &Fill) -> u32 {
    let mut others = 0u32;
    let mut rank = 0u32;
    for node in nodes {
        if let Some(cells) = node.array(array) {
            others = others.wrapping_add(count_others(cells, fill, rank));
        }
        rank = rank.wrapping_add(1);
    }
    others
}
