//! Exchange lines.

ghost use Rattle.std.specs.Prelude.{◌≡◌};
ghost use Rattle.pack_words.specs.GridState.{GridState};
ghost use Rattle.pack_words.specs.GridPlans.{IsOf};
ghost use Rattle.program_meaning.specs.Declarations.{Loads};
ghost use Rattle.program_meaning.specs.Exchanges.{part_in};
ghost use Rattle.program_meaning.specs.Programs.{line_done};
ghost use Rattle.line_plans.specs.Kinds.{kind_of_line};
ghost use Rattle.line_plans.specs.Known.{IsKnown};
ghost use Rattle.line_plans.specs.Standing.{state_of, IsExchanged};

use crate::declared::Declared;
use crate::halt::Halt;
use crate::kind::Kind;
use crate::moves::{plan_general, plan_trapezoid};
use crate::points::{plan_receive, plan_send};
use crate::scopes::{plan_barrier, plan_broadcast, plan_combine};
use grid_lang::{Area, Line};
use msg_core::Plan;
use pack_words::{FoldKind, RankOp};
use scope_ops::Part;
use std::alloc::Global;

// The part of an array that a line names.
fn part_of(area: &Area) -> Part
    ensures { result ≡ part_in area.now }
{
    Part {
        array: area.array,
        i: area.i,
        j: area.j,
        m: area.m,
        n: area.n,
    }
}

/// Plans an exchange line after the lines before it. After an answer other than Ok the plan may hold operations of the line;
/// no line is planned after one.
#[tactic(auto, using(crate::proofs::KnownLaws::known_grid, crate::proofs::KnownLaws::known_array, crate::proofs::KnownLaws::known_spread), unfolding(program_meaning::specs::Programs::line_done, grid_lang::specs::Facts::Keeps))]
pub fn plan_exchange(
    alloc: Global,
    declared: &Declared,
    plan: &mut Plan<RankOp>,
    line: &Line,
) -> Result<(), Halt>
    requires world { declared.now.shapes.ranks ≡ plan.old.ranks }
    requires kind { kind_of_line line.now ≡ Kind.Exchange }
    requires known { IsKnown declared.now line.now }
    ensures ranks { plan.new.ranks ≡ plan.old.ranks }
    ensures done { (loads : Loads) (state : GridState) → IsOf declared.now.shapes plan.old state →
        IsExchanged result declared.now plan.old plan.new state (line_done loads (state_of declared.now plan.old state) line.now) }
{
    match line {
        Line::Send {
            grid,
            p,
            q,
            area,
            rdest,
            cdest,
            tri,
        } => plan_send(
            alloc,
            declared,
            plan,
            *grid,
            (*p, *q),
            *tri,
            &part_of(area),
            (*rdest, *cdest),
        ),
        Line::Recv {
            grid,
            p,
            q,
            area,
            rsrc,
            csrc,
            tri,
        } => plan_receive(
            alloc,
            declared,
            plan,
            *grid,
            (*p, *q),
            *tri,
            &part_of(area),
            (*rsrc, *csrc),
        ),
        Line::Bcast {
            grid,
            scope,
            top,
            rsrc,
            csrc,
            area,
            tri,
        } => plan_broadcast(
            alloc,
            declared,
            plan,
            *grid,
            *scope,
            *top,
            *tri,
            &part_of(area),
            (*rsrc, *csrc),
        ),
        Line::Sum {
            grid,
            scope,
            top,
            dest,
            area,
        } => plan_combine(
            alloc,
            declared,
            plan,
            *grid,
            *scope,
            *top,
            FoldKind::Sum,
            &part_of(area),
            None,
            *dest,
        ),
        Line::Amx {
            grid,
            scope,
            top,
            dest,
            area,
            rc,
        } => plan_combine(
            alloc,
            declared,
            plan,
            *grid,
            *scope,
            *top,
            FoldKind::AbsMax,
            &part_of(area),
            *rc,
            *dest,
        ),
        Line::Amn {
            grid,
            scope,
            top,
            dest,
            area,
            rc,
        } => plan_combine(
            alloc,
            declared,
            plan,
            *grid,
            *scope,
            *top,
            FoldKind::AbsMin,
            &part_of(area),
            *rc,
            *dest,
        ),
        Line::Barrier { grid, scope } => plan_barrier(alloc, declared, plan, *grid, *scope),
        Line::Gemr2d { mr } => plan_general(alloc, declared, plan, mr),
        Line::Trmr2d { uplo, diag, mr } => {
            plan_trapezoid(alloc, declared, plan, *uplo, *diag, mr)
        }
        _ => unreachable!(),
    }
}
