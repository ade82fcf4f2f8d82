//! The plain programs that the fast ones are compared with: they walk index by index and element by element.
ghost use Rattle.std.specs.Prelude.{◌≡◌, ◌≤◌, ◌^◌, true};
ghost use Rattle.block_meet.specs.Runs.{IsAxis};

use block_meet::{Axis, Meet, Run};
use pack_words::{Cut, selected};
use std::alloc::{AllocError, Global};

/// Whether `n` indices are an axis within the limits.
pub fn fits(n: u32, a: &Axis) -> bool
    ensures { result ≡ true → IsAxis n a.now }
{
    a.nb >= 1
        && a.nb <= 1 << 24
        && a.procs <= 64
        && a.src < a.procs
        && a.first <= 1 << 24
        && n <= (1 << 24) - a.first
}

// The process that the index of the dimension belongs to.
fn owner(a: Axis, g: u32) -> u32
    requires { IsAxis 0 a }
{
    a.src.wrapping_add(g / a.nb) % a.procs
}

// How many indices of the dimension below `g` belong to the process of `g`.
fn local(a: Axis, g: u32) -> u32
    requires { IsAxis 0 a }
{
    let mut below = 0u32;
    for h in 0..g {
        if owner(a, h) == owner(a, g) {
            below = below.wrapping_add(1);
        }
    }
    below
}

// Whether two indices lie in one block.
fn together(a: Axis, i: u32, j: u32) -> bool
    requires { IsAxis 0 a }
{
    a.first.wrapping_add(i) / a.nb == a.first.wrapping_add(j) / a.nb
}

fn lengthen(runs: &mut Vec<Run>) {
    if let Some(run) = runs.last_mut() {
        run.len = run.len.wrapping_add(1);
    }
}

/// The runs of the first `n` indices, each index tested against the one before.
pub fn walked_rows(alloc: Global, n: u32, a: Axis, b: Axis) -> Result<Vec<Run>, AllocError>
    requires first { IsAxis 0 a }
    requires second { IsAxis 0 b }
{
    let mut runs = Vec::new(alloc);
    for i in 0..n {
        if i > 0 && together(a, i - 1, i) && together(b, i - 1, i) {
            lengthen(&mut runs);
        } else {
            let ga = a.first.wrapping_add(i);
            let gb = b.first.wrapping_add(i);
            runs.push(Run {
                start: i,
                len: 1,
                pa: owner(a, ga),
                pb: owner(b, gb),
                la: local(a, ga),
                lb: local(b, gb),
            })?;
        }
    }
    Ok(runs)
}

/// Those of the runs that lie on process `p` in A and on process `q` in B.
pub fn on_pair(alloc: Global, runs: &[Run], p: u32, q: u32) -> Result<Vec<Run>, AllocError> {
    let mut found = Vec::new(alloc);
    for run in runs {
        if run.pa == p && run.pb == q {
            found.push(*run)?;
        }
    }
    Ok(found)
}

// Whether a walk over a row run and a column run finds a selected element.
fn has_selected(cut: &Cut, row: &Run, column: &Run) -> bool {
    for i in 0..cut.m {
        for j in 0..cut.n {
            let in_row = row.start <= i && i - row.start < row.len;
            let in_column = column.start <= j && j - column.start < column.len;
            if in_row && in_column && selected(cut, i, j) {
                return true;
            }
        }
    }
    false
}

/// The meets of row runs and column runs, each rectangle searched element by element.
pub fn walked_meets(
    alloc: Global,
    cut: &Cut,
    rows: &[Run],
    columns: &[Run],
) -> Result<Vec<Meet>, AllocError> {
    let mut meets = Vec::new(alloc);
    for column in columns {
        for row in rows {
            if has_selected(cut, row, column) {
                meets.push(Meet {
                    i0: row.start,
                    j0: column.start,
                    rows: row.len,
                    cols: column.len,
                    ai: row.la,
                    aj: column.la,
                    bi: row.lb,
                    bj: column.lb,
                })?;
            }
        }
    }
    Ok(meets)
}
