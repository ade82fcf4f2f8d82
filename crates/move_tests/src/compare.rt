//! The fast programs beside the plain ones, on one case.
ghost use Rattle.std.specs.Prelude.{◌<◌};
ghost use Rattle.block_meet.specs.Runs.{IsAxis};
ghost use Rattle.block_meet.specs.Meets.{rows_of, columns_of};

use crate::walk::{on_pair, walked_meets, walked_rows};
use block_meet::{Axis, PairRuns, Run, RunTable, Side, Sub, count_meets, meet_rows, meets};
use std::alloc::{AllocError, Global};

// Whether the table tells the listed runs.
fn tells(table: &RunTable, runs: &[Run]) -> bool {
    if table.len() as usize != runs.len() {
        return false;
    }
    for k in 0..table.len() {
        if table.run(k) != runs[k as usize] {
            return false;
        }
    }
    true
}

// Whether the dealt runs of a pair are the listed ones.
fn deals(alloc: Global, dealt: &PairRuns, runs: &[Run], p: u32, q: u32) -> Result<bool, AllocError>
    requires in_a { p < dealt.now.a.procs }
    requires in_b { q < dealt.now.b.procs }
{
    let wanted = on_pair(alloc, runs, p, q)?;
    if dealt.len(p, q) as usize != wanted.len() {
        return Ok(false);
    }
    for k in 0..dealt.len(p, q) {
        if dealt.run(p, q, k) != wanted[k as usize] {
            return Ok(false);
        }
    }
    Ok(dealt.of(alloc, p, q)?.as_slice() == wanted.as_slice())
}

/// Whether the list, the table and the dealt runs are the walked ones.
pub fn same_runs(alloc: Global, n: u32, a: Axis, b: Axis) -> Result<bool, AllocError>
    requires first { IsAxis n a }
    requires second { IsAxis n b }
{
    let walked = walked_rows(alloc, n, a, b)?;
    let listed = meet_rows(alloc, n, a, b)?;
    let table = RunTable::new(alloc, n, a, b)?;
    let dealt = PairRuns::new(alloc, n, a, b)?;
    let mut same = listed.as_slice() == walked.as_slice() && tells(&table, &walked);
    for p in 0..a.procs {
        for q in 0..b.procs {
            same = deals(alloc, &dealt, &walked, p, q)? && same;
        }
    }
    Ok(same)
}

// Whether the meets of one pair are the walked ones, and how many they are.
fn same_meets_of(
    alloc: Global,
    sub: &Sub,
    a: &Side,
    b: &Side,
    source: (u32, u32),
    dest: (u32, u32),
) -> Result<Option<u64>, AllocError>
    requires rows_a { IsAxis sub.now.cut.m (rows_of a.now sub.now.ia) }
    requires rows_b { IsAxis sub.now.cut.m (rows_of b.now sub.now.ib) }
    requires columns_a { IsAxis sub.now.cut.n (columns_of a.now sub.now.ja) }
    requires columns_b { IsAxis sub.now.cut.n (columns_of b.now sub.now.jb) }
    requires source_row { source.0 < a.now.nprow }
    requires source_column { source.1 < a.now.npcol }
    requires dest_row { dest.0 < b.now.nprow }
    requires dest_column { dest.1 < b.now.npcol }
{
    let rows = walked_rows(alloc, sub.cut.m, a.rows(sub.ia), b.rows(sub.ib))?;
    let columns = walked_rows(alloc, sub.cut.n, a.columns(sub.ja), b.columns(sub.jb))?;
    let rows = on_pair(alloc, &rows, source.0, dest.0)?;
    let columns = on_pair(alloc, &columns, source.1, dest.1)?;
    let walked = walked_meets(alloc, &sub.cut, &rows, &columns)?;
    let found = meets(alloc, sub, a, b, source, dest)?;
    if found.as_slice() == walked.as_slice() {
        Ok(Some(found.len() as u64))
    } else {
        Ok(None)
    }
}

// The meets of one source with all destinations.
fn same_meets_from(
    alloc: Global,
    sub: &Sub,
    a: &Side,
    b: &Side,
    source: (u32, u32),
) -> Result<Option<u64>, AllocError>
    requires rows_a { IsAxis sub.now.cut.m (rows_of a.now sub.now.ia) }
    requires rows_b { IsAxis sub.now.cut.m (rows_of b.now sub.now.ib) }
    requires columns_a { IsAxis sub.now.cut.n (columns_of a.now sub.now.ja) }
    requires columns_b { IsAxis sub.now.cut.n (columns_of b.now sub.now.jb) }
    requires source_row { source.0 < a.now.nprow }
    requires source_column { source.1 < a.now.npcol }
{
    let mut total = 0u64;
    for r in 0..b.nprow {
        for s in 0..b.npcol {
            match same_meets_of(alloc, sub, a, b, source, (r, s))? {
                Some(count) => total = total.wrapping_add(count),
                None => return Ok(None),
            }
        }
    }
    Ok(Some(total))
}

/// Whether the meets of each pair are the walked ones, and `count_meets` their number over all pairs.
pub fn same_meets(alloc: Global, sub: &Sub, a: &Side, b: &Side) -> Result<bool, AllocError>
    requires rows_a { IsAxis sub.now.cut.m (rows_of a.now sub.now.ia) }
    requires rows_b { IsAxis sub.now.cut.m (rows_of b.now sub.now.ib) }
    requires columns_a { IsAxis sub.now.cut.n (columns_of a.now sub.now.ja) }
    requires columns_b { IsAxis sub.now.cut.n (columns_of b.now sub.now.jb) }
{
    let mut total = 0u64;
    for p in 0..a.nprow {
        for q in 0..a.npcol {
            match same_meets_from(alloc, sub, a, b, (p, q))? {
                Some(count) => total = total.wrapping_add(count),
                None => return Ok(false),
            }
        }
    }
    Ok(count_meets(alloc, sub, a, b)? == total)
}
