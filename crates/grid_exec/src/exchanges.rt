//! The exchanges of a program are planned.

ghost use Rattle.std.specs.Prelude.{◌≡◌};
ghost use Rattle.pack_words.specs.GridState.{GridState};
ghost use Rattle.pack_words.specs.GridPlans.{IsOf};
ghost use Rattle.program_meaning.specs.Programs.{line_done, lines_done, no_loads};
ghost use Rattle.line_plans.specs.Known.{IsKnown};
ghost use Rattle.line_plans.specs.Standing.{state_of, IsExchanged};
ghost use Rattle.grid_exec.specs.Sections.{IsLater, AreLater, AreKnown};
ghost use Rattle.grid_exec.specs.Planning.{IsPlanned};

use crate::err::ExecErr;
use crate::stopping::stopped;
use grid_lang::{Line, Numbered};
use line_plans::{Declared, Halt, Kind, kind_of, plan_exchange};
use msg_core::Plan;
use pack_words::RankOp;
use std::alloc::Global;

// An exchange, or a result, which changes nothing.
#[tactic(auto, using(crate::proofs::LaterLines::outcome_done))]
fn plan_line(
    alloc: Global,
    declared: &Declared,
    plan: &mut Plan<RankOp>,
    line: &Line,
) -> Result<(), Halt>
    requires world { declared.now.shapes.ranks ≡ plan.old.ranks }
    requires known { IsKnown declared.now line.now }
    requires later { IsLater line.now }
    ensures ranks { plan.new.ranks ≡ plan.old.ranks }
    ensures done { (state : GridState) → IsOf declared.now.shapes plan.old state →
        IsExchanged result declared.now plan.old plan.new state (line_done no_loads (state_of declared.now plan.old state) line.now) }
{
    match kind_of(line) {
        Kind::Exchange => plan_exchange(alloc, declared, plan, line),
        _ => Ok(()),
    }
}

/// Plans the exchanges and passes the results over, one line after the other.
#[tactic(auto, using(crate::proofs::LaterLines::first_known, crate::proofs::LaterLines::rest_known, crate::proofs::PlanSteps::on_the_way, crate::proofs::PlanSteps::stopped_there, crate::proofs::PlanSteps::all_there))]
pub(crate) fn plan_exchanges(
    alloc: Global,
    declared: &Declared,
    plan: &mut Plan<RankOp>,
    lines: &[Numbered],
) -> Result<(), ExecErr>
    requires world { declared.now.shapes.ranks ≡ plan.old.ranks }
    requires known { AreKnown declared.now lines.now }
    requires later { AreLater lines.now }
    ensures ranks { plan.new.ranks ≡ plan.old.ranks }
    ensures done { (state : GridState) → IsOf declared.now.shapes plan.old state →
        IsPlanned result declared.now plan.old plan.new state (lines_done no_loads (state_of declared.now plan.old state) lines.now) }
{
    for l in lines {
        match plan_line(alloc, declared, plan, &l.line) {
            Ok(()) => {}
            Err(halt) => return Err(stopped(l.number, halt)),
        }
    }
    Ok(())
}
