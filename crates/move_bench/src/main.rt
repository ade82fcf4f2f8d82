//! Moves an N by N matrix from P by Q processes in blocks of MB by NB to P2 by Q2 in blocks of MB2 by NB2, in memory:
//! `move_bench N P Q MB NB P2 Q2 MB2 NB2`. After these words `plan` only plans, and `time` tells the microseconds of the
//! planning, of the stage's buffers and of the run in order.
#![tactic(auto)]

ghost use Rattle.std.specs.Prelude.{IfOk};
ghost use Rattle.move_tests.specs.MovePlans.{IsTrial};

use move_tests::matrix::Matrix;
use move_tests::memories::Fill;
use move_tests::trial::{Case, Trial, begin};
use move_tests::words::{arrived, changed};
use proc_grid::{Contexts, Order, World, gridinit};
use std::alloc::Global;
use std::env;
use std::test::Fail;
use std::time::Instant;

// Words that tell the array, the rank and the place.
fn marks(array: i32) -> Fill {
    Fill {
        first: array.wrapping_mul(1 << 29),
        rank: 1 << 25,
        row: 1,
        column: 1 << 12,
    }
}

// The move of a whole matrix.
fn case_of(n: u32, from: &[u32], to: &[u32]) -> Option<Case> {
    let a = matrix(0, n, from)?;
    let b = matrix(1, n, to)?;
    Some(Case {
        letters: None,
        sizes: (n, n),
        a,
        from: (0, 0),
        b,
        to: (0, 0),
    })
}

// A matrix in blocks over a grid of these numbers: rows and columns of processes, rows and columns of a block.
fn matrix(ctxt: u32, n: u32, numbers: &[u32]) -> Option<Matrix> {
    let mb = numbers.get(2)?;
    let nb = numbers.get(3)?;
    Some(Matrix {
        ctxt,
        sizes: (n, n),
        blocks: (*mb, *nb),
        source: (0, 0),
        more: 0,
    })
}

// Both grids, over as many ranks as the greater one has.
fn grids(alloc: Global, ranks: u32, from: &[u32], to: &[u32]) -> Option<Contexts> {
    let world = World::new(ranks)?;
    let first = gridinit(alloc, &world, Order::R, *from.get(0)?, *from.get(1)?).ok()?;
    let second = gridinit(alloc, &world, Order::R, *to.get(0)?, *to.get(1)?).ok()?;
    let mut contexts = Contexts::new(alloc).ok()?;
    contexts.add(first).ok()?;
    contexts.add(second).ok()?;
    Some(contexts)
}

// The number of processes of a grid.
fn processes(numbers: &[u32]) -> u32 {
    match (numbers.get(0), numbers.get(1)) {
        (Some(rows), Some(columns)) => rows.wrapping_mul(*columns),
        _ => 0,
    }
}

// The grids and arrays of the move, without an operation.
fn trial_of(alloc: Global, case: &Case, from: &[u32], to: &[u32]) -> Result<Trial, Fail>
    ensures { IfOk result (λ trial. IsTrial trial) }
{
    let ranks = processes(from).max(processes(to));
    let Some(contexts) = grids(alloc, ranks, from, to) else {
        return Err(Fail::from("the grids"));
    };
    begin(alloc, ranks, contexts, &[case.a, case.b])
}

// Plans the move, and tells its numbers and the microseconds.
fn planned(rt: &HostRuntime, trial: &mut Trial, case: &Case) -> Result<(u64, u32, u32, u128), Fail>
    requires { IsTrial trial.old }
    ensures { IsTrial trial.new }
{
    let start = Instant::now(rt)?;
    let moved = trial.add(rt.alloc(), case, 0, 1)?;
    let time = start.elapsed(rt)?.as_micros();
    let Ok(moved) = moved else {
        return Err(Fail::from("the move"));
    };
    Ok((moved.meets, moved.messages, moved.copies, time))
}

// Runs the plan, and tells whether all words are right, and the microseconds of the stage's buffers and of the run.
fn run(rt: &HostRuntime, trial: Trial, case: &Case) -> Result<(bool, u128, u128), Fail>
    requires { IsTrial trial }
{
    let nodes = trial.memories(rt.alloc(), &[marks(0), marks(1)])?;
    let start = Instant::now(rt)?;
    let (contexts, stage) = trial.ready(rt.alloc(), nodes)?;
    let prepare = start.elapsed(rt)?.as_micros();
    let start = Instant::now(rt)?;
    let after = stage.run_in_order();
    let time = start.elapsed(rt)?.as_micros();
    let (there, all) = arrived(rt.alloc(), &contexts, case, &marks(0), &after, 1)?;
    let right = there == all && changed(&after, 0, &marks(0)) == 0;
    Ok((right, prepare, time))
}

fn main(rt: HostRuntime) -> Result<(), Fail> {
    let alloc = rt.alloc();
    let words: Vec<String> = env::args(&rt)?.collect(alloc)?;
    if words.len() < 10 {
        return Err(Fail::from("usage: move_bench N P Q MB NB P2 Q2 MB2 NB2 [plan|time]"));
    }
    let mut numbers = Vec::new(alloc);
    for word in &words[1..10] {
        numbers.push(word.parse::<u32>()?)?;
    }
    if numbers.len() != 9 {
        return Err(Fail::from("nine numbers"));
    }
    let n = numbers[0];
    let (from, to) = (&numbers[1..5], &numbers[5..9]);
    let Some(case) = case_of(n, from, to) else {
        return Err(Fail::from("the blocks"));
    };
    let mode = match words.get(10) {
        Some(word) => word.as_str(),
        None => "check",
    };
    let mut trial = trial_of(alloc, &case, from, to)?;
    let (meets, messages, copies, planning) = planned(&rt, &mut trial, &case)?;
    println!(rt; "{n} by {n}: meets {meets} messages {messages} copies {copies}")?;
    if mode == "plan" {
        return Ok(());
    }
    let (right, prepare, time) = run(&rt, trial, &case)?;
    println!(rt; "all words right: {right}")?;
    if mode == "time" {
        println!(rt; "planning {planning} us, prepare {prepare} us, run {time} us")?;
    }
    Ok(())
}
