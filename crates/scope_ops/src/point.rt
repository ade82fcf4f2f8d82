//! Point to point. A User's Guide to the BLACS, IGESD2D, IGERV2D, ITRSD2D and ITRRV2D.

ghost use Rattle.std.specs.Prelude.{◌<◌, length, OnOk};
ghost use Rattle.msg_core.specs.Plans.{waiting_lens};
ghost use Rattle.pack_words.specs.declared.shape.Shape.TheVariants.{Ge, Tr};
ghost use Rattle.scope_ops.specs.Lines.{sent_line, received_line};
ghost use Rattle.pack_words.specs.GridState.{rank_steps};
ghost use Rattle.scope_ops.specs.Calls.{IsMade, IsKept};
ghost use Rattle.scope_ops.specs.Refusals.{AreOfOneWorld, IsAnswer, send_fault, receive_fault, part_count};
ghost use Rattle.proc_grid.specs.Grid.{rank_of};

use crate::part::Part;
use crate::places::point;
use crate::pushes::{push_get, push_put, refused};
use crate::scope_err::ScopeErr;
use msg_core::Plan;
use pack_words::{Diag, RankOp, Shape, Shapes, Uplo};
use proc_grid::Context;
use std::alloc::Global;

// The selected elements of the part are sent.
fn send_part(
    plan: &mut Plan<RankOp>,
    shapes: &Shapes,
    ctx: &Context,
    me: (u32, u32),
    shape: Shape,
    part: &Part,
    dest: (u32, u32),
) -> Result<(), ScopeErr>
    requires world { AreOfOneWorld plan.old shapes.now ctx.now }
    requires array { part.now.array < shapes.now.count }
    ensures fault { IsAnswer result (send_fault (length plan.old.steps) shapes.now ctx.now me part.now dest) }
    ensures ok { OnOk result (IsMade shapes.now plan.old plan.new
        (sent_line (rank_of ctx.now me) (rank_of ctx.now dest) shape part.now) 1 1 (part_count shape part.now)) }
    ensures kept { IsKept result plan.old plan.new }
{
    let (from, to) = match point(shapes, ctx, me, dest, part) {
        Ok(ranks) => ranks,
        Err(e) => return Err(e),
    };
    match push_put(plan, from, to, shape, part) {
        Ok(()) => Ok(()),
        Err(e) => Err(refused(e)),
    }
}

// The first message of the pair is taken into the selected elements of the part.
fn receive_part(
    plan: &mut Plan<RankOp>,
    shapes: &Shapes,
    ctx: &Context,
    me: (u32, u32),
    shape: Shape,
    part: &Part,
    src: (u32, u32),
) -> Result<(), ScopeErr>
    requires world { AreOfOneWorld plan.old shapes.now ctx.now }
    requires array { part.now.array < shapes.now.count }
    ensures fault { IsAnswer result (receive_fault (length plan.old.steps) (waiting_lens rank_steps plan.old) shapes.now ctx.now me shape part.now src) }
    ensures ok { OnOk result (IsMade shapes.now plan.old plan.new
        (received_line (rank_of ctx.now src) (rank_of ctx.now me) shape part.now) 1 0 0) }
    ensures kept { IsKept result plan.old plan.new }
{
    let (to, from) = match point(shapes, ctx, me, src, part) {
        Ok(ranks) => ranks,
        Err(e) => return Err(e),
    };
    match push_get(plan, from, to, shape, part) {
        Ok(()) => Ok(()),
        Err(e) => Err(refused(e)),
    }
}

/// The process at `me` sends its part to the one at `dest`. It never answers SameArray, BadRcLead, NoMessage or
/// WrongLength. A User's Guide to the BLACS, IGESD2D.
pub fn igesd2d(
    _alloc: Global,
    plan: &mut Plan<RankOp>,
    shapes: &Shapes,
    ctx: &Context,
    me: (u32, u32),
    part: &Part,
    dest: (u32, u32),
) -> Result<(), ScopeErr>
    requires world { AreOfOneWorld plan.old shapes.now ctx.now }
    requires array { part.now.array < shapes.now.count }
    ensures fault { IsAnswer result (send_fault (length plan.old.steps) shapes.now ctx.now me part.now dest) }
    ensures ok { OnOk result (IsMade shapes.now plan.old plan.new
        (sent_line (rank_of ctx.now me) (rank_of ctx.now dest) Ge part.now) 1 1 (part_count Ge part.now)) }
    ensures kept { IsKept result plan.old plan.new }
{
    send_part(plan, shapes, ctx, me, Shape::Ge, part, dest)
}

/// The process at `me` receives into its part from the one at `src`. It never answers SameArray or BadRcLead. A
/// User's Guide to the BLACS, IGERV2D.
pub fn igerv2d(
    _alloc: Global,
    plan: &mut Plan<RankOp>,
    shapes: &Shapes,
    ctx: &Context,
    me: (u32, u32),
    part: &Part,
    src: (u32, u32),
) -> Result<(), ScopeErr>
    requires world { AreOfOneWorld plan.old shapes.now ctx.now }
    requires array { part.now.array < shapes.now.count }
    ensures fault { IsAnswer result (receive_fault (length plan.old.steps) (waiting_lens rank_steps plan.old) shapes.now ctx.now me Ge part.now src) }
    ensures ok { OnOk result (IsMade shapes.now plan.old plan.new
        (received_line (rank_of ctx.now src) (rank_of ctx.now me) Ge part.now) 1 0 0) }
    ensures kept { IsKept result plan.old plan.new }
{
    receive_part(plan, shapes, ctx, me, Shape::Ge, part, src)
}

/// As `igesd2d`, of the selected elements of a trapezoid. A User's Guide to the BLACS, ITRSD2D.
pub fn itrsd2d(
    _alloc: Global,
    plan: &mut Plan<RankOp>,
    shapes: &Shapes,
    ctx: &Context,
    me: (u32, u32),
    uplo: Uplo,
    diag: Diag,
    part: &Part,
    dest: (u32, u32),
) -> Result<(), ScopeErr>
    requires world { AreOfOneWorld plan.old shapes.now ctx.now }
    requires array { part.now.array < shapes.now.count }
    ensures fault { IsAnswer result (send_fault (length plan.old.steps) shapes.now ctx.now me part.now dest) }
    ensures ok { OnOk result (IsMade shapes.now plan.old plan.new
        (sent_line (rank_of ctx.now me) (rank_of ctx.now dest) (Tr uplo diag) part.now) 1 1 (part_count (Tr uplo diag) part.now)) }
    ensures kept { IsKept result plan.old plan.new }
{
    send_part(plan, shapes, ctx, me, Shape::Tr(uplo, diag), part, dest)
}

/// As `igerv2d`, into the selected elements of a trapezoid. A User's Guide to the BLACS, ITRRV2D.
pub fn itrrv2d(
    _alloc: Global,
    plan: &mut Plan<RankOp>,
    shapes: &Shapes,
    ctx: &Context,
    me: (u32, u32),
    uplo: Uplo,
    diag: Diag,
    part: &Part,
    src: (u32, u32),
) -> Result<(), ScopeErr>
    requires world { AreOfOneWorld plan.old shapes.now ctx.now }
    requires array { part.now.array < shapes.now.count }
    ensures fault { IsAnswer result (receive_fault (length plan.old.steps) (waiting_lens rank_steps plan.old) shapes.now ctx.now me (Tr uplo diag) part.now src) }
    ensures ok { OnOk result (IsMade shapes.now plan.old plan.new
        (received_line (rank_of ctx.now src) (rank_of ctx.now me) (Tr uplo diag) part.now) 1 0 0) }
    ensures kept { IsKept result plan.old plan.new }
{
    receive_part(plan, shapes, ctx, me, Shape::Tr(uplo, diag), part, src)
}
