//! The two moves of ScaLAPACK REDIST.

ghost use Rattle.std.specs.Prelude.{◌≡◌, ◌≢◌, ◌⊎◌, ◌↔◌, ◌<◌, ◌≤◌, ◌+◌, ℕ, List, length, None, Some, Err, IfOk, IfErr, OnErr, OnOk};
ghost use Rattle.msg_core.specs.Plans.{waiting_lens};
ghost use Rattle.proc_grid.specs.Grid.{Grid, IsGrid};
ghost use Rattle.proc_grid.specs.Held.{context_at};
ghost use Rattle.descriptor.specs.InfoOf.{info_of};
ghost use Rattle.descriptor.specs.Entries.{gemr2d_entries, trmr2d_entries, move_entries};
ghost use Rattle.descriptor.specs.declared.moves.MrErr.TheVariants.{Info, SameArray, TooManyOps, NoMemory};
ghost use Rattle.descriptor.specs.declared.info.Info.{Info as Number};
ghost use Rattle.pack_words.specs.declared.shape.Shape.TheVariants.{Ge};
ghost use Rattle.pack_words.specs.GridState.{rank_steps};
ghost use Rattle.block_meet.specs.declared.axis.Run.{Run};
ghost use Rattle.mr2d.specs.Plans.{operations};
ghost use Rattle.mr2d.specs.Between.{meets_by, AreRowRuns, AreColumnRuns};
ghost use Rattle.mr2d.specs.Calls.{move_of, shape_by, IsReady, CanPlan, CanCall, AppendsMove, WaitsStay, IsAppended, IsMoved, IsTooLong};

use crate::job::Job;
use crate::jobs::append_job;
use crate::sides::{side, sub};
use block_meet::{PairRuns, count_meets};
use descriptor::{Moved, MrArgs, MrErr, Spread, info_gemr2d, info_trmr2d};
use msg_core::Plan;
use pack_words::{Diag, RankOp, Shape, Shapes, Uplo};
use proc_grid::{Context, Contexts};
use std::alloc::Global;

// The move between two grids, of arguments that passed their check.
fn plan_between(
    alloc: Global,
    plan: &mut Plan<RankOp>,
    shapes: &Shapes,
    args: &MrArgs,
    shape: Shape,
    source: &Context,
    target: &Context,
) -> Result<Moved, MrErr>
    requires ready { IsReady args.now source.now target.now }
    requires apart { args.now.a ≢ args.now.b }
    requires can { CanPlan args.now source.now target.now shapes.now plan.old.ranks (waiting_lens rank_steps plan.old) }
    ensures done { IfOk result (λ moved.
        IsAppended shapes.now (move_of shape args.now source.now target.now) plan.old plan.new moved) }
    ensures full { result ≡ Err TooManyOps → (rs cs : List Run) →
        AreRowRuns (move_of shape args.now source.now target.now) rs →
        AreColumnRuns (move_of shape args.now source.now target.now) cs →
        let mv = move_of shape args.now source.now target.now in
        1048576 < length plan.old.steps + length (operations mv (meets_by mv.cut source.now target.now rs cs) plan.old.ranks) }
    ensures fits { OnOk result (length plan.new.steps ≤ 1048576) }
    ensures err { IfErr result (λ e. (e ≡ TooManyOps) ⊎ (e ≡ NoMemory)) }
    ensures refused { OnErr result (plan.new.steps ≡ plan.old.steps) }
    ensures ranks { plan.new.ranks ≡ plan.old.ranks }
{
    let _ranks = shapes.ranks();
    let a = side(&args.desca, source);
    let b = side(&args.descb, target);
    let sub = sub(args, shape);
    let Ok(meets) = count_meets(alloc, &sub, &a, &b) else {
        return Err(MrErr::NoMemory);
    };
    let Ok(rows) = PairRuns::new(alloc, sub.cut.m, a.rows(sub.ia), b.rows(sub.ib)) else {
        return Err(MrErr::NoMemory);
    };
    let Ok(columns) = PairRuns::new(alloc, sub.cut.n, a.columns(sub.ja), b.columns(sub.jb)) else {
        return Err(MrErr::NoMemory);
    };
    let job = Job {
        cut: sub.cut,
        a: args.a,
        b: args.b,
        source,
        target,
        rows,
        columns,
    };
    append_job(alloc, plan, &job, meets)
}

// The grid of a descriptor.
fn grid_of<'c>(contexts: &'c Contexts, spread: &Spread) -> &'c Context
    requires { (g : Grid) × (context_at contexts.now spread.now.desc.ctxt ≡ Some g) }
    ensures is { context_at contexts.now spread.now.desc.ctxt ≡ Some result.now }
    ensures grid { IsGrid result.now }
{
    let Some(context) = contexts.get(spread.desc.ctxt) else {
        unreachable!()
    };
    let _rows = context.nprow();
    context
}

// The move of arguments that passed their check.
fn plan_move(
    alloc: Global,
    plan: &mut Plan<RankOp>,
    shapes: &Shapes,
    contexts: &Contexts,
    args: &MrArgs,
    shape: Shape,
) -> Result<Moved, MrErr>
    requires passes { (shift : ℕ) × (info_of (move_entries contexts.now args.now shift) ≡ None) }
    requires can { CanCall contexts.now args.now shapes.now plan.old }
    ensures done { IfOk result (λ moved. IsMoved contexts.now shapes.now shape args.now plan.old plan.new moved) }
    ensures appends { OnOk result (AppendsMove contexts.now shape args.now shapes.now plan.old plan.new) }
    ensures waits { OnOk result (WaitsStay plan.old plan.new) }
    ensures same { (result ≡ Err SameArray) ↔ (args.now.a ≡ args.now.b) }
    ensures full { result ≡ Err TooManyOps → IsTooLong contexts.now shape args.now plan.old }
    ensures fits { OnOk result (length plan.new.steps ≤ 1048576) }
    ensures err { IfErr result (λ e. (e ≡ SameArray) ⊎ ((e ≡ TooManyOps) ⊎ (e ≡ NoMemory))) }
    ensures refused { OnErr result (plan.new.steps ≡ plan.old.steps) }
    ensures ranks { plan.new.ranks ≡ plan.old.ranks }
{
    if args.a == args.b {
        return Err(MrErr::SameArray);
    }
    let source = grid_of(contexts, &args.desca);
    let target = grid_of(contexts, &args.descb);
    plan_between(alloc, plan, shapes, args, shape, source, target)
}

/// Appends the move of the M by N submatrix of array A to that of array B: one send and one receive for each ordered
/// pair of different ranks with a meet, and one copy for each rank with a meet to itself. Sends and copies come first,
/// together in one order by source rank, then destination rank; the receives come after them in the same order of pairs.
/// Info exactly as `info_gemr2d`, then SameArray exactly where A is B, then TooManyOps exactly where the plan would pass
/// 2^20 operations. ScaLAPACK REDIST, `PIGEMR2D`.
pub fn pigemr2d(
    alloc: Global,
    plan: &mut Plan<RankOp>,
    shapes: &Shapes,
    contexts: &Contexts,
    args: &MrArgs,
) -> Result<Moved, MrErr>
    requires can { info_of (gemr2d_entries contexts.now args.now) ≡ None →
        CanCall contexts.now args.now shapes.now plan.old }
    ensures done { IfOk result (λ moved. IsMoved contexts.now shapes.now Ge args.now plan.old plan.new moved) }
    ensures appends { OnOk result (AppendsMove contexts.now Ge args.now shapes.now plan.old plan.new) }
    ensures waits { OnOk result (WaitsStay plan.old plan.new) }
    ensures passes { OnOk result (info_of (gemr2d_entries contexts.now args.now) ≡ None) }
    ensures bad { (i : Number) → (result ≡ Err (Info i)) ↔ (info_of (gemr2d_entries contexts.now args.now) ≡ Some i) }
    ensures same { (result ≡ Err SameArray) ↔
        ((info_of (gemr2d_entries contexts.now args.now) ≡ None) × (args.now.a ≡ args.now.b)) }
    ensures full { result ≡ Err TooManyOps → IsTooLong contexts.now Ge args.now plan.old }
    ensures fits { OnOk result (length plan.new.steps ≤ 1048576) }
    ensures refused { OnErr result (plan.new.steps ≡ plan.old.steps) }
    ensures ranks { plan.new.ranks ≡ plan.old.ranks }
{
    if let Err(info) = info_gemr2d(contexts, args) {
        return Err(MrErr::Info(info));
    }
    plan_move(alloc, plan, shapes, contexts, args, Shape::Ge)
}

// The trapezoid of two letters.
fn shape_of(uplo: char, diag: char) -> Shape
    ensures { result ≡ shape_by uplo diag }
{
    let uplo = if uplo == 'U' || uplo == 'u' {
        Uplo::Upper
    } else {
        Uplo::Lower
    };
    let diag = if diag == 'N' || diag == 'n' {
        Diag::N
    } else {
        Diag::U
    };
    Shape::Tr(uplo, diag)
}

/// Appends the move of a trapezoid: of only the selected elements. Info exactly as `info_trmr2d`, and all else as
/// `pigemr2d`. ScaLAPACK REDIST, `PITRMR2D`.
pub fn pitrmr2d(
    alloc: Global,
    plan: &mut Plan<RankOp>,
    shapes: &Shapes,
    contexts: &Contexts,
    uplo: char,
    diag: char,
    args: &MrArgs,
) -> Result<Moved, MrErr>
    requires can { info_of (trmr2d_entries contexts.now uplo diag args.now) ≡ None →
        CanCall contexts.now args.now shapes.now plan.old }
    ensures done { IfOk result (λ moved. IsMoved contexts.now shapes.now (shape_by uplo diag) args.now plan.old plan.new moved) }
    ensures appends { OnOk result (AppendsMove contexts.now (shape_by uplo diag) args.now shapes.now plan.old plan.new) }
    ensures waits { OnOk result (WaitsStay plan.old plan.new) }
    ensures passes { OnOk result (info_of (trmr2d_entries contexts.now uplo diag args.now) ≡ None) }
    ensures bad { (i : Number) → (result ≡ Err (Info i)) ↔
        (info_of (trmr2d_entries contexts.now uplo diag args.now) ≡ Some i) }
    ensures same { (result ≡ Err SameArray) ↔
        ((info_of (trmr2d_entries contexts.now uplo diag args.now) ≡ None) × (args.now.a ≡ args.now.b)) }
    ensures full { result ≡ Err TooManyOps → IsTooLong contexts.now (shape_by uplo diag) args.now plan.old }
    ensures fits { OnOk result (length plan.new.steps ≤ 1048576) }
    ensures refused { OnErr result (plan.new.steps ≡ plan.old.steps) }
    ensures ranks { plan.new.ranks ≡ plan.old.ranks }
{
    if let Err(info) = info_trmr2d(contexts, uplo, diag, args) {
        return Err(MrErr::Info(info));
    }
    plan_move(alloc, plan, shapes, contexts, args, shape_of(uplo, diag))
}
