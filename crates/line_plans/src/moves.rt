//! Moves between spread arrays.

ghost use Rattle.std.specs.Prelude.{◌≡◌, ◌+◌, pos, Some, IfOk, is_some, true};
ghost use Rattle.proc_grid.specs.Grid.{IsGrid};
ghost use Rattle.proc_grid.specs.Held.{context_at};
ghost use Rattle.msg_core.specs.Plans.{word_count};
ghost use Rattle.pack_words.specs.GridState.{GridState, rank_steps};
ghost use Rattle.pack_words.specs.GridPlans.{IsOf};
ghost use Rattle.program_meaning.specs.Exchanges.{exchanged, general_move, trapezoid_move};
ghost use Rattle.line_plans.specs.Moving.{AreSpread, ArgsAre, IsMoveAnswer, IsMoveQuiet};
ghost use Rattle.line_plans.specs.Standing.{state_of, IsExchanged};

use crate::declared::Declared;
use crate::halt::Halt;
use crate::quiet::check_between;
use crate::settled::words_so_far;
use descriptor::{Llds, Moved, MrArgs, MrErr, Spread};
use grid_lang::Mr;
use mr2d::{pigemr2d, pitrmr2d};
use msg_core::Plan;
use pack_words::RankOp;
use proc_grid::Context;
use program_meaning::ExecFault;
use std::alloc::{AllocError, Global};

// A copy of how an array is spread.
fn copied(alloc: Global, spread: &Spread) -> Result<Spread, AllocError>
    ensures { IfOk result (λ s. s ≡ spread.now) }
{
    let list = Vec::from_slice(alloc, spread.llds.as_slice())?;
    Ok(Spread {
        desc: spread.desc,
        llds: Llds::new(list),
    })
}

// A number of a line as an argument of a call.
fn wide(number: i32) -> i64
    ensures { result ≡ number }
{
    number as i64
}

// The number of a grid as an argument of a call.
fn context(grid: u32) -> i64
    ensures { result ≡ pos grid }
{
    grid as i64
}

// The arguments of a move of two arrays that are declared with a spread.
fn args_of(alloc: Global, declared: &Declared, mr: &Mr) -> Result<MrArgs, AllocError>
    requires { AreSpread declared.now mr.now }
    ensures { IfOk result (λ args. ArgsAre declared.now args mr.now) }
{
    let source = declared.spread(mr.a);
    let target = declared.spread(mr.b);
    let desca = copied(alloc, source)?;
    let descb = copied(alloc, target)?;
    Ok(MrArgs {
        m: wide(mr.m),
        n: wide(mr.n),
        a: mr.a,
        ia: wide(mr.ia),
        ja: wide(mr.ja),
        desca,
        b: mr.b,
        ib: wide(mr.ib),
        jb: wide(mr.jb),
        descb,
        ictxt: context(mr.grid),
    })
}

// What a move's call leaves, as its line's answer: the call's refusal, or too many words.
fn move_settled(
    called: Result<Moved, MrErr>,
    declared: &Declared,
    plan: &Plan<RankOp>,
) -> Result<(), Halt>
    ensures { IsMoveAnswer called result (declared.now.words + word_count rank_steps plan.now.steps) }
{
    match called {
        Ok(_moved) => words_so_far(declared, plan),
        Err(MrErr::Info(info)) => Err(Halt::Fault(ExecFault::Info(info))),
        Err(MrErr::SameArray) => Err(Halt::Fault(ExecFault::SameArray)),
        Err(MrErr::TooManyOps) => Err(Halt::Fault(ExecFault::TooManyOps)),
        Err(MrErr::NoMemory) => Err(Halt::NoMemory),
    }
}

// The grid over which an array is spread.
fn grid_of<'c>(declared: &'c Declared, spread: &Spread) -> &'c Context
    requires { is_some (context_at declared.now.contexts spread.now.desc.ctxt) ≡ true }
    ensures is { context_at declared.now.contexts spread.now.desc.ctxt ≡ Some result.now }
    ensures grid { IsGrid result.now }
{
    match declared.contexts.get(spread.desc.ctxt) {
        Some(ctx) => ctx,
        None => unreachable!(),
    }
}

// Refuses a move while a message waits from a rank of its first grid to one of its second.
fn check_move(declared: &Declared, plan: &Plan<RankOp>, args: &MrArgs) -> Result<(), Halt>
    requires source { is_some (context_at declared.now.contexts args.now.desca.desc.ctxt) ≡ true }
    requires target { is_some (context_at declared.now.contexts args.now.descb.desc.ctxt) ≡ true }
    ensures { IsMoveQuiet result declared.now plan.now args.now }
{
    let a = grid_of(declared, &args.desca);
    let b = grid_of(declared, &args.descb);
    check_between(plan, a, b)
}

/// GEMR2D: the move of a part of an array into a part of another.
pub(crate) fn plan_general(
    alloc: Global,
    declared: &Declared,
    plan: &mut Plan<RankOp>,
    mr: &Mr,
) -> Result<(), Halt>
    requires world { declared.now.shapes.ranks ≡ plan.old.ranks }
    requires spread { AreSpread declared.now mr.now }
    ensures ranks { plan.new.ranks ≡ plan.old.ranks }
    ensures done { (state : GridState) → IsOf declared.now.shapes plan.old state →
        let s = state_of declared.now plan.old state in
        IsExchanged result declared.now plan.old plan.new state (exchanged s (general_move s mr.now)) }
{
    let Ok(args) = args_of(alloc, declared, mr) else {
        return Err(Halt::NoMemory);
    };
    if let Err(halt) = check_move(declared, plan, &args) {
        return Err(halt);
    }
    let called = pigemr2d(alloc, plan, &declared.shapes, &declared.contexts, &args);
    move_settled(called, declared, plan)
}

/// TRMR2D: the same of a trapezoid.
pub(crate) fn plan_trapezoid(
    alloc: Global,
    declared: &Declared,
    plan: &mut Plan<RankOp>,
    uplo: char,
    diag: char,
    mr: &Mr,
) -> Result<(), Halt>
    requires world { declared.now.shapes.ranks ≡ plan.old.ranks }
    requires spread { AreSpread declared.now mr.now }
    ensures ranks { plan.new.ranks ≡ plan.old.ranks }
    ensures done { (state : GridState) → IsOf declared.now.shapes plan.old state →
        let s = state_of declared.now plan.old state in
        IsExchanged result declared.now plan.old plan.new state (exchanged s (trapezoid_move s uplo diag mr.now)) }
{
    let Ok(args) = args_of(alloc, declared, mr) else {
        return Err(Halt::NoMemory);
    };
    if let Err(halt) = check_move(declared, plan, &args) {
        return Err(halt);
    }
    let called = pitrmr2d(
        alloc,
        plan,
        &declared.shapes,
        &declared.contexts,
        uplo,
        diag,
        &args,
    );
    move_settled(called, declared, plan)
}
