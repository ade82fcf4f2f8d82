//! A program is checked.

ghost use Rattle.std.specs.Prelude.{◌≡◌, ◌<◌, ◌≤◌, Ok as Done, drop, length, IfOk};
ghost use Rattle.pack_words.specs.GridState.{GridState};
ghost use Rattle.pack_words.specs.GridPlans.{IsOf};
ghost use Rattle.grid_lang.specs.Facts.{Known, known_after};
ghost use Rattle.grid_exec.specs.Sections.{IsFront, AreLater, AreKnown, MayDeclare, IsAfterRanks};
ghost use Rattle.program_meaning.specs.ProgramState.{ProgramState, begun};
ghost use Rattle.program_meaning.specs.Programs.{line_done, lines_done, program_done, no_loads};
ghost use Rattle.line_plans.specs.Exact.{IsExact};
ghost use Rattle.line_plans.specs.Known.{Stands, IsKnown};
ghost use Rattle.line_plans.specs.Standing.{state_of, IsAt};
ghost use Rattle.grid_exec.specs.Checking.{IsChecked, IsChecking, IsFrontDone};

use crate::err::ExecErr;
use crate::exchanges::plan_exchanges;
use crate::front::is_later;
use crate::stopping::stopped;
use crate::summary::Summary;
use grid_lang::{Line, Numbered, Program};
use line_plans::{Declared, Halt, Kind, declare, kind_of, words_with};
use msg_core::Plan;
use pack_words::RankOp;
use std::alloc::Global;

// A line at the front. What arrays hold isn't looked at: FILL and LOAD leave what is declared.
fn check_line(
    alloc: Global,
    declared: Declared,
    plan: &Plan<RankOp>,
    line: &Line,
) -> Result<Declared, Halt>
    requires known { IsKnown declared line.now }
    requires front { IsFront line.now }
    ensures known { (k : Known) → Stands declared k → IfOk result (λ d. Stands d (known_after k line.now)) }
    ensures ranks { IfOk result (λ d. d.shapes.ranks ≡ declared.shapes.ranks) }
    ensures done { (state : GridState) → IsOf declared.shapes plan.now state → IsExact declared.shapes state →
        IsChecking result plan.now (line_done no_loads (state_of declared plan.now state) line.now) }
{
    match kind_of(line) {
        Kind::Declaration => match declare(alloc, declared, plan, line) {
            Ok(grown) => Ok(grown.declared),
            Err(halt) => Err(halt),
        },
        _ => Ok(declared),
    }
}

// What is declared by the lines up to the first exchange or result, and how many they are.
fn check_front(
    alloc: Global,
    declared: Declared,
    plan: &Plan<RankOp>,
    lines: &[Numbered],
) -> Result<(Declared, usize), ExecErr>
    requires known { MayDeclare declared lines.now }
    ensures known { IfOk result (λ x. AreKnown x.0 (drop x.1 lines.now)) }
    ensures later { IfOk result (λ x. AreLater (drop x.1 lines.now)) }
    ensures inside { IfOk result (λ x. x.1 ≤ length lines.now) }
    ensures ranks { IfOk result (λ x. x.0.shapes.ranks ≡ declared.shapes.ranks) }
    ensures done { (state : GridState) → IsOf declared.shapes plan.now state → IsExact declared.shapes state →
        IsFrontDone result plan.now (state_of declared plan.now state) lines.now }
{
    let mut declared = declared;
    for k in 0..lines.len() {
        let l = &lines[k];
        if is_later(&l.line) {
            return Ok((declared, k));
        }
        declared = match check_line(alloc, declared, plan, &l.line) {
            Ok(next) => next,
            Err(halt) => return Err(stopped(l.number, halt)),
        };
    }
    Ok((declared, lines.len()))
}

// The numbers of what is declared and planned.
fn summary(declared: &Declared, plan: &Plan<RankOp>) -> Summary
    ensures { (s : ProgramState) → IsAt declared.now plan.now s → IsChecked (Done result) (Done s) }
{
    Summary {
        ranks: declared.shapes.ranks(),
        operations: plan.len(),
        messages: plan.messages(),
        words: words_with(declared, plan, 0),
    }
}

// The lines after RANKS.
fn check_lines(alloc: Global, ranks: u32, lines: &[Numbered]) -> Result<Summary, ExecErr>
    requires some { 0 < ranks }
    requires most { ranks ≤ 64 }
    requires sound { IsAfterRanks ranks lines.now }
    ensures { IsChecked result (lines_done no_loads (begun ranks) lines.now) }
{
    let Ok(declared) = Declared::new(alloc, ranks) else {
        return Err(ExecErr::NoMemory);
    };
    let Ok(mut plan) = Plan::new(alloc, ranks) else {
        return Err(ExecErr::NoMemory);
    };
    let (declared, count) = match check_front(alloc, declared, &plan, lines) {
        Ok(front) => front,
        Err(e) => return Err(e),
    };
    match plan_exchanges(alloc, &declared, &mut plan, &lines[count..]) {
        Ok(()) => Ok(summary(&declared, &plan)),
        Err(e) => Err(e),
    }
}

/// Checks a program without its files: its ranks, and the operations, messages and words of its lines. `Bad` tells the
/// first line that is refused, and why; `Load` and a size that a file has aren't answered, since no file is read.
#[tactic(auto, using(grid_lang::proofs::FactLaws::not_empty, grid_lang::proofs::FactLaws::first_is_ranks, grid_lang::proofs::FactLaws::few_ranks, grid_lang::proofs::FactLaws::sound_after_ranks), unfolding(program_meaning::specs::Programs::program_done, program_meaning::specs::Programs::line_done))]
pub fn check_program(alloc: Global, program: &Program) -> Result<Summary, ExecErr>
    ensures { IsChecked result (program_done no_loads program.now) }
{
    match program.lines() {
        [first, rest @ ..] => match &first.line {
            Line::Ranks { n } => check_lines(alloc, *n, rest),
            _ => unreachable!(),
        },
        [] => unreachable!(),
    }
}
