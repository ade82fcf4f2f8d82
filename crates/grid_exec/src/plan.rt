//! A program is planned.

ghost use Rattle.std.specs.Prelude.{◌≡◌, IfOk};
ghost use Rattle.msg_core.specs.Runs.{EveryRunIsInOrder};
ghost use Rattle.pack_words.specs.GridState.{rank_steps, rank_nodes};
ghost use Rattle.text_io.specs.Reading.{OnlyReads};
ghost use Rattle.program_meaning.specs.ProgramState.{ProgramState};
ghost use Rattle.program_results.specs.Standing.{AskFor};
ghost use Rattle.grid_exec.specs.Jobs.{IsJobOf};
ghost use Rattle.grid_exec.specs.Reading.{HasPlanCause};
ghost use Rattle.grid_exec.specs.Ending.{EndsAt};
ghost use Rattle.grid_exec.specs.Answers.{IsProgramAnswer};

use crate::err::ExecErr;
use crate::held::Held;
use crate::job::Job;
use crate::nodes::nodes_of;
use crate::planning::{Planned, plan_lines};
use grid_lang::{Line, Numbered, Program};
use msg_core::runs_are_in_order;
use program_results::Ends;
use std::alloc::{AllocError, Global};
use store_io::Store;

// The job of a program whose lines are planned.
fn make_job(alloc: Global, planned: Planned, lines: &[Numbered]) -> Result<Job, AllocError>
    requires ends { (s : ProgramState) × EndsAt planned.held planned.plan s }
    requires asks { AskFor planned.held.declared.shapes.ranks planned.held.declared.spreads.items lines.now }
    ensures done { (s : ProgramState) → EndsAt planned.held planned.plan s → IfOk result (λ job. IsJobOf job s lines.now) }
    ensures every_run { IfOk result (λ job. EveryRunIsInOrder rank_steps rank_nodes job.plan.steps job.nodes) }
{
    let Planned { held, plan } = planned;
    let Held { declared, contents } = held;
    let ends = Ends::new(alloc, lines, &declared.contexts, &declared.spreads)?;
    let nodes = nodes_of(alloc, contents.into_ranks(), &plan)?;
    runs_are_in_order(&plan, &nodes);
    Ok(Job::new(plan, nodes, ends))
}

/// Plans a program: its declarations in line order, with the files of its LOAD lines, and then its exchanges.
///
/// The job's plan has as many operations as the program, and every run of it, in whichever order the ranks step, ends after
/// just so many steps in the program's arrays; no state on the way is stuck. That holds with queues without bound, and with
/// queues that hold at least as many messages as wait of their pair at any time in the plan's own order.
///
/// `Bad` tells the first line that is refused, with its fault, be it the size of a LOAD's matrix. `Load` tells the file of
/// the first LOAD line that is missing, that failed, or that is no matrix file; the lines before it are not refused.
/// Whatever it answers, the store's files, its output and its openings for writing are as before, and so are its counts
/// but after a file that is missing or failed.
#[tactic(auto, using(grid_lang::proofs::FactLaws::not_empty, grid_lang::proofs::FactLaws::first_is_ranks, grid_lang::proofs::FactLaws::few_ranks, grid_lang::proofs::FactLaws::sound_after_ranks, crate::proofs::EndLaws::answer_ok, crate::proofs::EndLaws::answer_err, crate::proofs::EndLaws::asks_program))]
pub fn plan_program<S: Store>(
    alloc: Global,
    program: &Program,
    store: &mut S,
) -> Result<Job, ExecErr>
    ensures answer { IsProgramAnswer result (S.state store.old) program.now }
    ensures every_run { IfOk result (λ job. EveryRunIsInOrder rank_steps rank_nodes job.plan.steps job.nodes) }
    ensures same { OnlyReads (S.state store.old) (S.state store.new) }
    ensures cause { HasPlanCause result (S.state store.old) (S.state store.new) }
{
    let lines = program.lines();
    match lines {
        [first, rest @ ..] => match &first.line {
            Line::Ranks { n } => match plan_lines(alloc, *n, rest, store) {
                Ok(planned) => match make_job(alloc, planned, lines) {
                    Ok(job) => Ok(job),
                    Err(_) => Err(ExecErr::NoMemory),
                },
                Err(e) => Err(e),
            },
            _ => unreachable!(),
        },
        [] => unreachable!(),
    }
}
