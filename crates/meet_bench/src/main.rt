//! Plans a square matrix from a 4 by 4 grid to a 2 by 8 grid: the meets of each of the 256 pairs of processes are listed. `meet_bench N BLOCK_A BLOCK_B`, and `time` after it for the times.
#![tactic(auto)]

ghost use Rattle.std.specs.Prelude.{◌≡◌, ◌≤◌, ◌<◌, ◌^◌};
ghost use Rattle.block_meet.specs.Runs.{IsAxis};
ghost use Rattle.block_meet.specs.Meets.{rows_of, columns_of};

use block_meet::{Meet, PairRuns, RunTable, Side, Sub, count_meets, meets_of};
use pack_words::{Cut, Diag, Shape, Uplo};
use std::alloc::{AllocError, Global};
use std::env;
use std::time::Instant;

const MOST: u32 = 1 << 24;

// Square blocks over a grid.
fn side(block: u32, nprow: u32, npcol: u32) -> Side
    ensures { result ≡ record { mb = block; nb = block; rsrc = 0; csrc = 0; nprow = nprow; npcol = npcol } }
{
    Side {
        mb: block,
        nb: block,
        rsrc: 0,
        csrc: 0,
        nprow,
        npcol,
    }
}

// How many meets the lists of all pairs of processes have.
fn listed(alloc: Global, cut: &Cut, a: &Side, b: &Side) -> Result<u64, AllocError>
    requires rows_a { IsAxis cut.now.m (rows_of a.now 0) }
    requires rows_b { IsAxis cut.now.m (rows_of b.now 0) }
    requires columns_a { IsAxis cut.now.n (columns_of a.now 0) }
    requires columns_b { IsAxis cut.now.n (columns_of b.now 0) }
{
    let rows = PairRuns::new(alloc, cut.m, a.rows(0), b.rows(0))?;
    let columns = PairRuns::new(alloc, cut.n, a.columns(0), b.columns(0))?;
    let mut count = 0u64;
    for p in 0..a.nprow {
        for q in 0..b.nprow {
            let rows = rows.of(alloc, p, q)?;
            for u in 0..a.npcol {
                for v in 0..b.npcol {
                    let columns = columns.of(alloc, u, v)?;
                    let meets: Vec<Meet> = meets_of(alloc, cut, &rows, &columns)?;
                    count = count.wrapping_add(meets.len() as u64);
                }
            }
        }
    }
    Ok(count)
}

fn main(rt: HostRuntime) -> anyhow::Result<()> {
    let alloc = rt.alloc();
    let words: Vec<String> = env::args(&rt)?.collect(alloc)?;
    if words.len() < 4 {
        return Err(anyhow::anyhow!("usage: meet_bench N BLOCK_A BLOCK_B [time]"));
    }
    let n = words[1].parse::<u32>()?;
    let block_a = words[2].parse::<u32>()?;
    let block_b = words[3].parse::<u32>()?;
    if n > MOST || block_a == 0 || block_a > MOST || block_b == 0 || block_b > MOST {
        return Err(anyhow::anyhow!("the blocks have 1 to 2^24 rows, and N is at most 2^24"));
    }
    let timed = words.len() > 4;
    let a = side(block_a, 4, 4);
    let b = side(block_b, 2, 8);
    let whole = Cut {
        shape: Shape::Ge,
        m: n,
        n,
    };
    let start = Instant::now(&rt)?;
    let table = RunTable::new(alloc, n, a.rows(0), b.rows(0))?;
    let held = table.held();
    let runs = table.len();
    let table_us = start.elapsed(&rt)?.as_micros();
    println!(rt; "{n} rows in blocks of {block_a} and of {block_b}: {runs} runs, {held} kept")?;
    let lower = Sub {
        cut: Cut {
            shape: Shape::Tr(Uplo::Lower, Diag::N),
            m: n,
            n,
        },
        ia: 0,
        ja: 0,
        ib: 0,
        jb: 0,
    };
    let start = Instant::now(&rt)?;
    let below = count_meets(alloc, &lower, &a, &b)?;
    let count_us = start.elapsed(&rt)?.as_micros();
    println!(rt; "lower trapezoid: {below} meets")?;
    if timed {
        println!(rt; "table {table_us} us, count {count_us} us")?;
    }
    if n > 8192 {
        return Ok(());
    }
    let start = Instant::now(&rt)?;
    let count = listed(alloc, &whole, &a, &b)?;
    let list_us = start.elapsed(&rt)?.as_micros();
    println!(rt; "whole: {count} meets of 256 pairs")?;
    if timed {
        println!(rt; "lists {list_us} us")?;
    }
    Ok(())
}
