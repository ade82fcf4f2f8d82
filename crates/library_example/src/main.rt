//! What a user of the libraries writes: index functions, a grid, routes, and a matrix that moves between grids in memory.
#![tactic(auto)]

ghost use Rattle.std.specs.Prelude.{◌≡◌, ◌<◌};
ghost use Rattle.index_tools.specs.Spread.{spread, below};

use grid_exec::{Mode, plan_program, run_program};
use grid_lang::parse_program;
use index_tools::{indxg2l, indxg2p, numroc};
use proc_grid::{Order, World, gridinit};
use route_tree::{Top, route};
use store_io::{MemStore, StdSink};

// A 3 by 2 matrix moves from two process rows in blocks of 2 rows to two process columns in blocks of 1 column.
const MOVE: &str =
    "RANKS 2\nGRID g R 2 1\nGRID h R 1 2\nARRAY a g 3 2 2 1 0 0\nARRAY b h 3 2 3 1 0 0\n\
    FILL a 11 10 1 0\nGEMR2D 3 2 a 1 1 b 1 1 g\nPRINT b\n";

// How many rows of 7 a process row owns, in blocks of 2 over 3 process rows. The clause counts them one by one.
fn rows_on(p: u32) -> u32
    requires { p < 3 }
    ensures { result ≡ below (spread 2 0 3) p 7 }
{
    numroc(7, 2, p, 0, 3)
}

// Where these rows lie on a grid of 3 by 2.
fn tell_rows(rt: &HostRuntime) -> anyhow::Result<()> {
    let world = World::new(6).ok_or_else(|| anyhow::anyhow!("6 ranks"))?;
    let grid = gridinit(rt.alloc(), &world, Order::R, 3, 2)?;
    for p in 0..3 {
        let (rows, rank) = (rows_on(p), grid.pnum(p as i32, 0));
        println!(rt; "process ({p}, 0) is rank {rank} and has {rows} rows")?;
    }
    let (p, row) = (indxg2p(7, 2, 0, 0, 3), indxg2l(7, 2, 0, 0, 3));
    println!(rt; "row 7 is row {row} of process row {p}")?;
    Ok(())
}

// The edges of a topology, along which the first of 8 processes tells all others.
fn tell_route(rt: &HostRuntime, letter: char) -> anyhow::Result<()> {
    let top = Top::read(letter).ok_or_else(|| anyhow::anyhow!("a topology"))?;
    print!(rt; "topology {letter}:")?;
    for (from, to) in route(rt.alloc(), top, 8, 0)? {
        print!(rt; " {from}-{to}")?;
    }
    println!(rt; "")?;
    Ok(())
}

// Plans a program, runs it in the order that a seed draws, and prints its results.
fn run(rt: &HostRuntime, text: &str) -> anyhow::Result<()> {
    let alloc = rt.alloc();
    let program = parse_program(alloc, text.as_bytes()).map_err(|e| anyhow::anyhow!("{e:?}"))?;
    let mut no_files = MemStore::new(alloc, 0, 0)?;
    let job = plan_program(alloc, &program, &mut no_files).map_err(|e| anyhow::anyhow!("{e:?}"))?;
    let done = run_program(alloc, job, Mode::Seed(1))?;
    done.print(&mut StdSink::new(rt.stdout()))
        .map_err(|_| anyhow::anyhow!("the output failed"))
}

fn main(rt: HostRuntime) -> anyhow::Result<()> {
    tell_rows(&rt)?;
    for letter in "IDSMHFT3".chars() {
        tell_route(&rt, letter)?;
    }
    run(&rt, MOVE)
}
