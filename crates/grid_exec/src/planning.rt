//! The lines of a program are planned, with their files.

ghost use Rattle.std.specs.Prelude.{◌≡◌, ◌<◌, ◌≤◌, IfOk};
ghost use Rattle.text_io.specs.Reading.{OnlyReads};
ghost use Rattle.program_meaning.specs.ProgramState.{begun};
ghost use Rattle.grid_exec.specs.Sections.{IsAfterRanks};
ghost use Rattle.grid_exec.specs.Reading.{HasPlanCause};
ghost use Rattle.grid_exec.specs.Ending.{IsPlanEnd, AsksFor};

use crate::beginning::begin;
use crate::err::ExecErr;
use crate::exchanges::plan_exchanges;
use crate::front::fill_lines;
use crate::held::Held;
use grid_lang::Numbered;
use msg_core::Plan;
use pack_words::RankOp;
use std::alloc::Global;
use store_io::Store;

// What is declared, the arrays before the first exchange, and the plan of all exchanges.
#[derive(Drop)]
pub(crate) struct Planned {
    pub(crate) held: Held,
    pub(crate) plan: Plan<RankOp>,
}

/// Plans the lines after RANKS.
pub(crate) fn plan_lines<S: Store>(
    alloc: Global,
    ranks: u32,
    lines: &[Numbered],
    store: &mut S,
) -> Result<Planned, ExecErr>
    requires some { 0 < ranks }
    requires most { ranks ≤ 64 }
    requires sound { IsAfterRanks ranks lines.now }
    ensures done { IsPlanEnd result (S.state store.old) (begun ranks) lines.now }
    ensures asks { IfOk result (λ x. AsksFor x lines.now) }
    ensures same { OnlyReads (S.state store.old) (S.state store.new) }
    ensures cause { HasPlanCause result (S.state store.old) (S.state store.new) }
{
    let Ok(held) = begin(alloc, ranks) else {
        return Err(ExecErr::NoMemory);
    };
    let Ok(mut plan) = Plan::new(alloc, ranks) else {
        return Err(ExecErr::NoMemory);
    };
    let (held, count) = match fill_lines(alloc, held, &plan, lines, store) {
        Ok(front) => front,
        Err(e) => return Err(e),
    };
    match plan_exchanges(alloc, &held.declared, &mut plan, &lines[count..]) {
        Ok(()) => Ok(Planned { held, plan }),
        Err(e) => Err(e),
    }
}
