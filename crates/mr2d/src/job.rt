//! A move whose arguments were checked, and the runs that its pairs of ranks have together.

ghost use Rattle.std.specs.Prelude.{◌≡◌, ◌<◌, IfOk, IfSome, List, [], filter};
ghost use Rattle.proc_grid.specs.Grid.{place_of};
ghost use Rattle.block_meet.specs.declared.axis.Run.{Run};
ghost use Rattle.block_meet.specs.Meets.{rectangles, touches};
ghost use Rattle.mr2d.specs.Between.{meets_by};
ghost use Rattle.mr2d.specs.Jobs.{IsJob, AreRunsOf, AreCommonRuns};

use crate::parts::CommonRuns;
use block_meet::PairRuns;
use pack_words::Cut;
use proc_grid::Context;
use std::alloc::{AllocError, Global};

/// A cut of array `a` over one grid, moved to array `b` over another, with the runs of its rows and columns.
#[derive(Drop)]
pub(crate) struct Job<'a> {
    pub(crate) cut: Cut,
    pub(crate) a: u32,
    pub(crate) b: u32,
    pub(crate) source: &'a Context,
    pub(crate) target: &'a Context,
    pub(crate) rows: PairRuns,
    pub(crate) columns: PairRuns,
    ghost fits: { IsJob cut source.now target.now rows columns },
}

// The place of a rank in a grid, if it has one.
fn place(ctx: &Context, rank: u32) -> Option<(u32, u32)>
    requires { rank < 64 }
    ensures place { result ≡ place_of ctx.now rank }
    ensures row { IfSome result (λ place. place.0 < ctx.now.nprow) }
    ensures column { IfSome result (λ place. place.1 < ctx.now.npcol) }
{
    let _rows = ctx.nprow();
    let (row, column) = ctx.pcoord(rank as i32);
    if row < 0 || column < 0 {
        return None;
    }
    Some((row as u32, column as u32))
}

// No run at all.
fn no_runs(alloc: Global) -> CommonRuns
    ensures rows { result.rows.items ≡ [] }
    ensures columns { result.columns.items ≡ [] }
{
    CommonRuns {
        rows: Vec::new(alloc),
        columns: Vec::new(alloc),
    }
}

/// The runs that lie on rank `from` in A and on rank `to` in B.
pub(crate) fn runs_at(
    alloc: Global,
    job: &Job,
    from: u32,
    to: u32,
) -> Result<CommonRuns, AllocError>
    requires from { from < 64 }
    requires to { to < 64 }
    ensures meets { IfOk result (λ runs. (rs cs : List Run) → AreRunsOf job.now.rows rs →
        AreRunsOf job.now.columns cs →
        filter (touches job.now.cut) (rectangles runs.rows.items runs.columns.items) ≡
        meets_by job.now.cut job.now.source.now job.now.target.now rs cs from to) }
    ensures common { IfOk result (λ runs. AreCommonRuns job.now.cut runs.rows.items runs.columns.items) }
{
    let Some((p, q)) = place(job.source, from) else {
        return Ok(no_runs(alloc));
    };
    let Some((r, s)) = place(job.target, to) else {
        return Ok(no_runs(alloc));
    };
    Ok(CommonRuns {
        rows: job.rows.of(alloc, p, r)?,
        columns: job.columns.of(alloc, q, s)?,
    })
}
