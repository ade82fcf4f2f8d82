//! A call's answer becomes its line's.

ghost use Rattle.std.specs.Prelude.{◌≡◌, ◌+◌, ◌≤◌, ◌^◌, None, Option, OnOk};
ghost use Rattle.std.specs.List.{find};
ghost use Rattle.std.specs.Option.{option_map};
ghost use Rattle.msg_core.specs.Plans.{PlanView, word_count};
ghost use Rattle.pack_words.specs.declared.rank_op.RankOp.{RankOp as Operation};
ghost use Rattle.pack_words.specs.GridState.{GridState, rank_steps};
ghost use Rattle.pack_words.specs.GridPlans.{IsOf};
ghost use Rattle.scope_ops.specs.Calls.{IsMade};
ghost use Rattle.scope_ops.specs.Refusals.{IsAnswer};
ghost use Rattle.scope_ops.specs.declared.scope_err.ScopeErr.{ScopeErr as Cause};
ghost use Rattle.program_meaning.specs.declared.fault.ExecFault.TheVariants as fault;
ghost use Rattle.program_meaning.specs.Exchanges.{Exchange, exchanged, waits};
ghost use Rattle.line_plans.specs.Standing.{state_of, IsExchanged, IsCounted};

use crate::declared::Declared;
use crate::halt::{Halt, scope_halt};
use msg_core::Plan;
use pack_words::RankOp;
use program_meaning::ExecFault;
use scope_ops::ScopeErr;

// The most words of a job.
pub(crate) const MOST_WORDS: u64 = 1 << 26;

// Refuses more words than a job may have.
pub(crate) fn counted(words: u64) -> Result<(), Halt>
    ensures { IsCounted result words }
{
    if words > MOST_WORDS {
        return Err(Halt::Fault(ExecFault::TooLarge(words)));
    }
    Ok(())
}

/// The words of all arrays and of all messages of the plan, and so many more.
#[tactic(auto, using(crate::proofs::WordLaws::few_words))]
pub fn words_with(declared: &Declared, plan: &Plan<RankOp>, more: u64) -> u64
    requires { more ≤ 2 ^ 60 }
    ensures { result ≡ declared.now.words + word_count rank_steps plan.now.steps + more }
{
    plan.facts();
    declared.words + plan.words() + more
}

// Refuses more words of arrays and messages than a job may have.
pub(crate) fn words_so_far(declared: &Declared, plan: &Plan<RankOp>) -> Result<(), Halt>
    ensures { IsCounted result (declared.now.words + word_count rank_steps plan.now.steps) }
{
    counted(words_with(declared, plan, 0))
}

/// What a scope call leaves, as its line's answer: the call's refusal, or too many words.
pub(crate) fn settled(
    called: Result<(), ScopeErr>,
    declared: &Declared,
    plan: &Plan<RankOp>,
) -> Result<(), Halt>
    ensures { (p : PlanView Operation) (state : GridState) (x : Exchange) (cause : Option Cause) →
        IsOf declared.now.shapes p state → find (waits state) x.pairs ≡ None →
        x.refused ≡ option_map fault.Scope cause → IsAnswer called cause →
        OnOk called (IsMade declared.now.shapes p plan.now x.does x.operations x.messages x.words) →
        IsExchanged result declared.now p plan.now state (exchanged (state_of declared.now p state) x) }
{
    match called {
        Ok(()) => words_so_far(declared, plan),
        Err(e) => Err(scope_halt(e)),
    }
}
