//! The meets of a pair of processes, and the count over all pairs.

ghost use Rattle.std.specs.Prelude.{◌≡◌, ◌+◌, ◌<◌, ◌≤◌, ◌^◌, ℕ, IfOk, List, IsTrue, count_by, filter};
ghost use Rattle.std.specs.List.{AllByRecursion};
ghost use Rattle.block_meet.specs.declared.axis.Run.{Run};
ghost use Rattle.block_meet.specs.Runs.{IsAxis, AreRuns};
ghost use Rattle.block_meet.specs.Pairs.{lies_on};
ghost use Rattle.block_meet.specs.Meets.{rows_of, columns_of, rectangle, rectangles, touches, covers, IsMeet, IsOnPair, AreOrdered};
ghost use Rattle.pack_words.specs.Selected.{is_selected};
ghost use Rattle.block_meet.specs.Fits.{AreShort};

use crate::{Meet, PairRuns, Run, RunTable, Side, Sub};
use pack_words::{Cut, Diag, Shape, Uplo, selected};
use std::alloc::{AllocError, Global};

/// The rectangles of row run by column run that have a selected element, whose part of A lies on `source` and whose
/// part of B lies on `dest`, by increasing `j0`, then `i0`.
pub fn meets(
    alloc: Global,
    sub: &Sub,
    a: &Side,
    b: &Side,
    source: (u32, u32),
    dest: (u32, u32),
) -> Result<Vec<Meet>, AllocError>
    requires rows_a { IsAxis sub.now.cut.m (rows_of a.now sub.now.ia) }
    requires rows_b { IsAxis sub.now.cut.m (rows_of b.now sub.now.ib) }
    requires columns_a { IsAxis sub.now.cut.n (columns_of a.now sub.now.ja) }
    requires columns_b { IsAxis sub.now.cut.n (columns_of b.now sub.now.jb) }
    requires source_row { source.0 < a.now.nprow }
    requires source_column { source.1 < a.now.npcol }
    requires dest_row { dest.0 < b.now.nprow }
    requires dest_column { dest.1 < b.now.npcol }
    // Row runs by column runs.
    ensures list { IfOk result (λ ms. (rs cs : List Run) →
        AreRuns sub.now.cut.m (rows_of a.now sub.now.ia) (rows_of b.now sub.now.ib) rs →
        AreRuns sub.now.cut.n (columns_of a.now sub.now.ja) (columns_of b.now sub.now.jb) cs →
        ms.items ≡ filter (touches sub.now.cut)
        (rectangles (filter (lies_on source.0 dest.0) rs) (filter (lies_on source.1 dest.1) cs))) }
    ensures meets { IfOk result (λ ms. AllByRecursion (IsMeet sub.now.cut (rows_of a.now sub.now.ia)
        (columns_of a.now sub.now.ja) (rows_of b.now sub.now.ib) (columns_of b.now sub.now.jb) source dest) ms.items) }
    ensures ordered { IfOk result (λ ms. AreOrdered ms.items) }
    // Each selected element of the pair is in one of them.
    ensures once { IfOk result (λ ms. (i j : ℕ) → i < sub.now.cut.m → j < sub.now.cut.n →
        IsTrue (is_selected sub.now.cut i j) → IsOnPair (rows_of a.now sub.now.ia) (columns_of a.now sub.now.ja)
        (rows_of b.now sub.now.ib) (columns_of b.now sub.now.jb) source dest i j →
        count_by (covers i j) ms.items ≡ 1) }
{
    let rows = PairRuns::new(alloc, sub.cut.m, a.rows(sub.ia), b.rows(sub.ib))?;
    let columns = PairRuns::new(alloc, sub.cut.n, a.columns(sub.ja), b.columns(sub.jb))?;
    let rows = rows.of(alloc, source.0, dest.0)?;
    let columns = columns.of(alloc, source.1, dest.1)?;
    meets_of(alloc, &sub.cut, &rows, &columns)
}

/// The number of meets over all pairs of processes. Whole shapes take a search in the kept runs of the rows and of the
/// columns; a trapezoid takes one for each row run.
pub fn count_meets(alloc: Global, sub: &Sub, a: &Side, b: &Side) -> Result<u64, AllocError>
    requires rows_a { IsAxis sub.now.cut.m (rows_of a.now sub.now.ia) }
    requires rows_b { IsAxis sub.now.cut.m (rows_of b.now sub.now.ib) }
    requires columns_a { IsAxis sub.now.cut.n (columns_of a.now sub.now.ja) }
    requires columns_b { IsAxis sub.now.cut.n (columns_of b.now sub.now.jb) }
    ensures { IfOk result (λ count. (rs cs : List Run) →
        AreRuns sub.now.cut.m (rows_of a.now sub.now.ia) (rows_of b.now sub.now.ib) rs →
        AreRuns sub.now.cut.n (columns_of a.now sub.now.ja) (columns_of b.now sub.now.jb) cs →
        count ≡ count_by (touches sub.now.cut) (rectangles rs cs)) }
{
    let rows = RunTable::new(alloc, sub.cut.m, a.rows(sub.ia), b.rows(sub.ib))?;
    let columns = RunTable::new(alloc, sub.cut.n, a.columns(sub.ja), b.columns(sub.jb))?;
    Ok(count_of(&sub.cut, &rows, &columns))
}

fn count_of(cut: &Cut, rows: &RunTable, columns: &RunTable) -> u64
    requires rows { rows.now.n ≡ cut.now.m }
    requires columns { columns.now.n ≡ cut.now.n }
    requires height { cut.now.m ≤ 2 ^ 24 }
    requires width { cut.now.n ≤ 2 ^ 24 }
    ensures { (rs cs : List Run) → AreRuns rows.now.n rows.now.a rows.now.b rs →
        AreRuns columns.now.n columns.now.a columns.now.b cs →
        result ≡ count_by (touches cut.now) (rectangles rs cs) }
{
    if let Shape::Ge = cut.shape {
        return u64::from(rows.len()) * u64::from(columns.len());
    }
    let mut count = 0;
    for k in 0..rows.len() {
        count += u64::from(touched_columns(cut, columns, &rows.run(k)));
    }
    count
}

// How many column runs have a selected element in a row run.
fn touched_columns(cut: &Cut, columns: &RunTable, row: &Run) -> u32
    requires some { 0 < row.now.len }
    requires bottom { row.now.start + row.now.len ≤ cut.now.m }
    requires columns { columns.now.n ≡ cut.now.n }
    requires height { cut.now.m ≤ 2 ^ 24 }
    requires width { cut.now.n ≤ 2 ^ 24 }
    ensures { (cs : List Run) → AreRuns columns.now.n columns.now.a columns.now.b cs →
        result ≡ count_by (λ c. touches cut.now (rectangle row.now c)) cs }
{
    let higher = cut.m.saturating_sub(cut.n);
    let wider = cut.n.saturating_sub(cut.m);
    match cut.shape {
        Shape::Ge => columns.len(),
        Shape::Tr(Uplo::Upper, Diag::N) => columns.ending_after(row.start.saturating_sub(higher)),
        Shape::Tr(Uplo::Upper, Diag::U) => columns.ending_after(
            (row.start + 1).saturating_sub(higher),
        ),
        Shape::Tr(Uplo::Lower, Diag::N) => columns.starting_before(row.start + row.len + wider),
        Shape::Tr(Uplo::Lower, Diag::U) => columns.starting_before(row.start + row.len - 1 + wider),
    }
}

/// The rectangles of these row runs by these column runs that have a selected element.
pub fn meets_of(
    alloc: Global,
    cut: &Cut,
    rows: &[Run],
    columns: &[Run],
) -> Result<Vec<Meet>, AllocError>
    requires rows { AreShort cut.now.m rows.now }
    requires columns { AreShort cut.now.n columns.now }
    requires height { cut.now.m ≤ 2 ^ 24 }
    requires width { cut.now.n ≤ 2 ^ 24 }
    ensures { IfOk result (λ ms. ms.items ≡ filter (touches cut.now) (rectangles rows.now columns.now)) }
{
    let mut meets = Vec::new(alloc);
    for column in columns {
        for row in rows {
            let meet = rectangle_of(row, column);
            if is_touched(cut, &meet) {
                meets.push(meet)?;
            }
        }
    }
    Ok(meets)
}

fn rectangle_of(row: &Run, column: &Run) -> Meet
    ensures { result ≡ rectangle row.now column.now }
{
    Meet {
        i0: row.start,
        j0: column.start,
        rows: row.len,
        cols: column.len,
        ai: row.la,
        aj: column.la,
        bi: row.lb,
        bj: column.lb,
    }
}

// Whether a rectangle has a selected element, by its corner that the shape favours.
fn is_touched(cut: &Cut, meet: &Meet) -> bool
    requires rows { 0 < meet.now.rows }
    requires columns { 0 < meet.now.cols }
    requires bottom { meet.now.i0 + meet.now.rows ≤ cut.now.m }
    requires right { meet.now.j0 + meet.now.cols ≤ cut.now.n }
    requires height { cut.now.m ≤ 2 ^ 24 }
    requires width { cut.now.n ≤ 2 ^ 24 }
    ensures { result ≡ touches cut.now meet.now }
{
    match cut.shape {
        Shape::Ge => true,
        Shape::Tr(Uplo::Upper, _) => selected(cut, meet.i0, meet.j0 + meet.cols - 1),
        Shape::Tr(Uplo::Lower, _) => selected(cut, meet.i0 + meet.rows - 1, meet.j0),
    }
}
