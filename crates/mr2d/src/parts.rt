//! Where the rectangles of two ranks lie in an array of the move.

ghost use Rattle.std.specs.Prelude.{◌≡◌, IfOk, map, filter};
ghost use Rattle.block_meet.specs.Meets.{rectangles, touches};
ghost use Rattle.mr2d.specs.Ends.{span_on, parts_on};
ghost use Rattle.mr2d.specs.Jobs.{AreCommonRuns};

use block_meet::Run;
use pack_words::{Cut, Regions, Span};
use std::alloc::{AllocError, Global};

/// An end of a move: array A, whose words are taken, or array B, to which they go.
#[derive(Clone, Copy, Debug)]
pub(crate) enum End {
    Source,
    Target,
}

/// The runs of the rows and of the columns that two ranks have together.
#[derive(Drop)]
pub(crate) struct CommonRuns {
    pub(crate) rows: Vec<Run>,
    pub(crate) columns: Vec<Run>,
}

// A run as it lies in the array.
fn span(run: &Run, end: End) -> Span
    ensures { result ≡ span_on end run.now }
{
    let place = match end {
        End::Source => run.la,
        End::Target => run.lb,
    };
    Span {
        first: run.start,
        place,
        len: run.len,
    }
}

fn spans(alloc: Global, runs: &[Run], end: End) -> Result<Vec<Span>, AllocError>
    ensures { IfOk result (λ spans. spans.items ≡ map (span_on end) runs.now) }
{
    let mut spans = Vec::with_capacity(alloc, runs.len())?;
    for run in runs {
        spans.push(span(run, end))?;
    }
    Ok(spans)
}

/// The rectangles of the runs that have a selected element, as they lie in the array. Only the runs are kept.
pub(crate) fn regions(
    alloc: Global,
    cut: &Cut,
    runs: &CommonRuns,
    end: End,
) -> Result<Regions, AllocError>
    requires { AreCommonRuns cut.now runs.now.rows.items runs.now.columns.items }
    ensures { IfOk result (λ regions. regions ≡ parts_on end
        (filter (touches cut.now) (rectangles runs.now.rows.items runs.now.columns.items))) }
{
    let rows = spans(alloc, &runs.rows, end)?;
    let columns = spans(alloc, &runs.columns, end)?;
    Regions::crossed(alloc, rows, columns, cut)
}
