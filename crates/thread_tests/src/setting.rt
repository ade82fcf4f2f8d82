//! The move that is timed: its grids, arrays and plan.
ghost use Rattle.std.specs.Prelude.{IfOk};
ghost use Rattle.move_tests.specs.MovePlans.{IsTrial};

use move_tests::matrix::Matrix;
use move_tests::memories::Fill;
use move_tests::trial::{Case, Trial, begin};
use move_tests::words::{arrived, changed};
use pack_words::RankMem;
use proc_grid::{Contexts, Order, World, gridinit};
use std::alloc::Global;
use std::test::Fail;

/// A planned move, and its number of operations.
#[derive(Drop)]
pub struct Setting {
    pub trial: Trial,
    pub operations: u32,
}

/// Words that tell the array, the rank and the place.
pub fn marks(array: i32) -> Fill {
    Fill {
        first: array.wrapping_mul(1 << 29),
        rank: 1 << 25,
        row: 1,
        column: 1 << 12,
    }
}

// A matrix in blocks over a grid of these numbers: rows and columns of processes, rows and columns of a block.
fn matrix(ctxt: u32, n: u32, numbers: &[u32]) -> Option<Matrix> {
    Some(Matrix {
        ctxt,
        sizes: (n, n),
        blocks: (*numbers.get(2)?, *numbers.get(3)?),
        source: (0, 0),
        more: 0,
    })
}

/// The move of a whole matrix: its size, and then the numbers of both grids.
pub fn case_of(numbers: &[u32]) -> Option<Case> {
    let n = *numbers.first()?;
    let a = matrix(0, n, numbers.get(1..5)?)?;
    let b = matrix(1, n, numbers.get(5..9)?)?;
    Some(Case {
        letters: None,
        sizes: (n, n),
        a,
        from: (0, 0),
        b,
        to: (0, 0),
    })
}

// Both grids, over as many ranks as the greater one has, and this number.
fn grids(alloc: Global, numbers: &[u32]) -> Option<(Contexts, u32)> {
    let (p, q) = (*numbers.get(1)?, *numbers.get(2)?);
    let (r, t) = (*numbers.get(5)?, *numbers.get(6)?);
    let ranks = p.wrapping_mul(q).max(r.wrapping_mul(t));
    let world = World::new(ranks)?;
    let mut contexts = Contexts::new(alloc).ok()?;
    contexts
        .add(gridinit(alloc, &world, Order::R, p, q).ok()?)
        .ok()?;
    contexts
        .add(gridinit(alloc, &world, Order::R, r, t).ok()?)
        .ok()?;
    Some((contexts, ranks))
}

/// The grids and arrays of the move, with its plan.
pub fn begin_case(alloc: Global, case: &Case, numbers: &[u32]) -> Result<Setting, Fail>
    ensures { IfOk result (λ s. IsTrial s.trial) }
{
    let (contexts, ranks) = grids(alloc, numbers).ok_or("the grids")?;
    let mut trial = begin(alloc, ranks, contexts, &[case.a, case.b])?;
    if trial.add(alloc, case, 0, 1)?.is_err() {
        return Err(Fail::from("the move"));
    }
    let operations = trial.ops();
    Ok(Setting { trial, operations })
}

/// Whether every word has arrived, and nothing else has changed.
pub fn arrived_all(
    alloc: Global,
    contexts: &Contexts,
    case: &Case,
    nodes: &[RankMem],
) -> Result<bool, Fail> {
    let (there, all) = arrived(alloc, contexts, case, &marks(0), nodes, 1)?;
    Ok(there == all && changed(nodes, 0, &marks(0)) == 0)
}
