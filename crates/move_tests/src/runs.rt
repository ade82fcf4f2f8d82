//! Runs of an axis: worked rows, the walking body over all small axes and drawn ones, and the limits.
ghost use Rattle.std.specs.Prelude.{◌≡◌};

use crate::compare::same_runs;
use crate::walk::fits;
use block_meet::{Axis, PairRuns, Run, RunTable, meet_rows};
use msg_core::{Picks, SeedPicks};
use std::alloc::{AllocError, Global};
use std::test::Fail;

fn axis(first: u32, nb: u32, src: u32, procs: u32) -> Axis
    ensures first { result.first ≡ first }
    ensures block { result.nb ≡ nb }
    ensures source { result.src ≡ src }
    ensures processes { result.procs ≡ procs }
{
    Axis {
        first,
        nb,
        src,
        procs,
    }
}

// Four rows, dealt out one by one and in twos, over two processes.
#[test]
fn four_rows_have_four_runs(rt: HostRuntime) -> Result<(), Fail> {
    let runs = meet_rows(rt.alloc(), 4, axis(0, 1, 0, 2), axis(0, 2, 0, 2))?;
    assert_eq!(rt; runs.len(), 4);
    Ok(())
}

// Twelve indices in blocks of 3 from index 1 on and in blocks of 4, over two processes each.
#[test]
fn twelve_indices_have_six_runs(rt: HostRuntime) -> Result<(), Fail> {
    let want: [(u32, u32, u32, u32, u32, u32); 6] = [
        (0, 2, 0, 0, 1, 0),
        (2, 2, 1, 0, 0, 2),
        (4, 1, 1, 1, 2, 0),
        (5, 3, 0, 1, 3, 1),
        (8, 3, 1, 0, 3, 4),
        (11, 1, 0, 0, 6, 7),
    ];
    let runs = meet_rows(rt.alloc(), 12, axis(1, 3, 0, 2), axis(0, 4, 0, 2))?;
    assert_eq!(rt; runs.len(), 6);
    for (run, (start, len, pa, pb, la, lb)) in runs.iter().zip(want) {
        let row = Run {
            start,
            len,
            pa,
            pb,
            la,
            lb,
        };
        assert!(rt; *run == row);
    }
    Ok(())
}

#[test]
fn a_million_rows_by_a_short_table(rt: HostRuntime) -> Result<(), Fail> {
    let table = RunTable::new(rt.alloc(), 1_000_000, axis(0, 1, 0, 2), axis(0, 2, 0, 2))?;
    assert_eq!(rt; table.len(), 1_000_000);
    assert!(rt; table.held() <= 15);
    let want = Run {
        start: 5,
        len: 1,
        pa: 1,
        pb: 0,
        la: 2,
        lb: 3,
    };
    assert!(rt; table.run(5) == want);
    Ok(())
}

#[test]
fn no_indices_no_runs(rt: HostRuntime) -> Result<(), Fail> {
    let a = axis(1 << 24, 3, 1, 2);
    let b = axis(0, 1 << 24, 63, 64);
    let table = RunTable::new(rt.alloc(), 0, a, b)?;
    assert_eq!(rt; table.len(), 0);
    let dealt = PairRuns::new(rt.alloc(), 0, a, b)?;
    assert_eq!(rt; dealt.len(1, 63), 0);
    assert_eq!(rt; dealt.of(rt.alloc(), 0, 0)?.len(), 0);
    assert_eq!(rt; meet_rows(rt.alloc(), 0, a, b)?.len(), 0);
    Ok(())
}

// Each small axis that begins at an index from `least` to below `most`.
fn small_axes(alloc: Global, least: u32, most: u32) -> Result<Vec<Axis>, AllocError> {
    let mut axes = Vec::new(alloc);
    for first in least..most {
        for nb in 1..5 {
            for procs in 1..5 {
                for src in 0..procs {
                    axes.push(axis(first, nb, src, procs))?;
                }
            }
        }
    }
    Ok(axes)
}

// How many of the numbers of indices up to `most` are told as they are walked.
fn same_up_to(alloc: Global, most: u32, a: &Axis, b: &Axis) -> Result<u32, AllocError> {
    let mut same = 0u32;
    for n in 0..=most {
        if fits(n, a) && fits(n, b) && same_runs(alloc, n, *a, *b)? {
            same = same.wrapping_add(1);
        }
    }
    Ok(same)
}

// The same of all small axes of A that begin at `first`, and all of B.
fn same_from(alloc: Global, first: u32) -> Result<u32, AllocError> {
    let all = small_axes(alloc, 0, 5)?;
    let some = small_axes(alloc, first, first.saturating_add(1))?;
    let mut same = 0u32;
    for a in &some {
        for b in &all {
            same = same.wrapping_add(same_up_to(alloc, 20, a, b)?);
        }
    }
    Ok(same)
}

// 40 axes of A, 200 of B, 21 numbers of indices.
const CASES: u32 = 168_000;

#[test]
fn small_axes_from_their_first_index(rt: HostRuntime) -> Result<(), Fail> {
    assert_eq!(rt; same_from(rt.alloc(), 0)?, CASES);
    Ok(())
}

#[test]
fn small_axes_from_the_second_index(rt: HostRuntime) -> Result<(), Fail> {
    assert_eq!(rt; same_from(rt.alloc(), 1)?, CASES);
    Ok(())
}

#[test]
fn small_axes_from_the_third_index(rt: HostRuntime) -> Result<(), Fail> {
    assert_eq!(rt; same_from(rt.alloc(), 2)?, CASES);
    Ok(())
}

#[test]
fn small_axes_from_the_fourth_index(rt: HostRuntime) -> Result<(), Fail> {
    assert_eq!(rt; same_from(rt.alloc(), 3)?, CASES);
    Ok(())
}

#[test]
fn small_axes_from_the_fifth_index(rt: HostRuntime) -> Result<(), Fail> {
    assert_eq!(rt; same_from(rt.alloc(), 4)?, CASES);
    Ok(())
}

// An axis of the next drawn numbers, of blocks up to 50 and up to 16 processes.
fn drawn_axis(picks: &mut SeedPicks) -> Axis {
    let procs = picks.pick(16) + 1;
    Axis {
        first: picks.pick(100),
        nb: picks.pick(50) + 1,
        src: picks.pick(procs),
        procs,
    }
}

#[test]
fn drawn_axes_as_they_are_walked(rt: HostRuntime) -> Result<(), Fail> {
    let mut picks = SeedPicks::new(1);
    for _ in 0..200 {
        let a = drawn_axis(&mut picks);
        let b = drawn_axis(&mut picks);
        let n = picks.pick(700);
        assert!(rt; fits(n, &a) && fits(n, &b) && same_runs(rt.alloc(), n, a, b)?);
    }
    Ok(())
}

fn last_run(table: &RunTable) -> Option<Run> {
    let count = table.len();
    if count == 0 {
        None
    } else {
        Some(table.run(count - 1))
    }
}

// Axes at the limits: how many runs there are, and the length of the last one.
#[test]
fn axes_at_the_limits(rt: HostRuntime) -> Result<(), Fail> {
    let most = 1u32 << 24;
    let rows: [(u32, Axis, Axis, u32, u32); 5] = [
        (
            most,
            axis(0, most, 0, 1),
            axis(0, most / 2, 63, 64),
            2,
            most / 2,
        ),
        (
            most - 1,
            axis(1, 4096, 0, 64),
            axis(1, most, 63, 64),
            4096,
            4096,
        ),
        (1, axis(most - 1, most, 5, 64), axis(0, most, 0, 64), 1, 1),
        (most, axis(0, most - 1, 3, 64), axis(0, most, 7, 63), 2, 1),
        (5, axis(most - 5, 2, 1, 2), axis(most - 5, 3, 2, 3), 4, 1),
    ];
    for (n, a, b, count, last) in rows {
        assert!(rt; fits(n, &a) && fits(n, &b));
        let table = RunTable::new(rt.alloc(), n, a, b)?;
        assert_eq!(rt; table.len(), count);
        let run = last_run(&table).ok_or("a run")?;
        assert_eq!(rt; run.start.wrapping_add(last), n);
        assert_eq!(rt; run.len, last);
    }
    Ok(())
}
