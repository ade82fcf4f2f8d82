//! The declarations at the front of a program, with their files.

ghost use Rattle.std.specs.Prelude.{◌≡◌, ◌≤◌, true, false, [], take, drop, length, IfOk};
ghost use Rattle.std.specs.List.{AllByRecursion};
ghost use Rattle.store_io.specs.Outside.{Outside};
ghost use Rattle.text_io.specs.Reading.{OnlyReads};
ghost use Rattle.grid_lang.specs.Facts.{Known, known_after};
ghost use Rattle.line_plans.specs.Kinds.{kind_of_line};
ghost use Rattle.line_plans.specs.Known.{Stands, IsKnown};
ghost use Rattle.grid_exec.specs.Sections.{IsFront, AreFront, IsLater, AreLater, AreKnown, MayDeclare};
ghost use Rattle.grid_exec.specs.Reading.{standing, IsLineFilled, IsFilled, HasPlanCause};

use crate::declaring::declare_held;
use crate::err::ExecErr;
use crate::filling::fill;
use crate::held::Held;
use crate::loading::load;
use crate::stopping::stopped;
use array_contents::Filling;
use grid_lang::{Line, Numbered};
use line_plans::{Kind, kind_of};
use msg_core::Plan;
use pack_words::RankOp;
use std::alloc::Global;
use store_io::Store;

// Whether a line is an exchange or a result.
pub(crate) fn is_later(line: &Line) -> bool
    ensures yes { result ≡ true → IsLater line.now }
    ensures no { result ≡ false → IsLater line.now → ⊥ }
{
    matches!(kind_of(line), Kind::Exchange | Kind::Outcome)
}

// The four numbers of a FILL line.
fn filling_of(a: &i32, b: &i32, c: &i32, d: &i32) -> Filling
    ensures { result ≡ record { a = a.now; b = b.now; c = c.now; d = d.now } }
{
    Filling {
        a: *a,
        b: *b,
        c: *c,
        d: *d,
    }
}

// A LOAD or a FILL line.
#[tactic(auto, using(crate::proofs::FrontLines::known_load, crate::proofs::FrontLines::known_fill, crate::proofs::FrontLines::load_line_filled, crate::proofs::FrontLines::fill_line_filled))]
fn set_words<S: Store>(
    alloc: Global,
    held: Held,
    plan: &Plan<RankOp>,
    l: &Numbered,
    store: &mut S,
) -> Result<Held, ExecErr>
    requires kind { kind_of_line l.now.line ≡ Kind.Words }
    requires known { IsKnown held.declared l.now.line }
    ensures declared { IfOk result (λ h. h.declared ≡ held.declared) }
    ensures done { (before : Outside) → OnlyReads before (S.state store.old) →
        IsLineFilled result before l.now plan.now (standing held plan.now) }
    ensures same { OnlyReads (S.state store.old) (S.state store.new) }
    ensures cause { HasPlanCause result (S.state store.old) (S.state store.new) }
{
    match &l.line {
        Line::Load { array, file } => load(alloc, held, l.number, *array, file, store),
        Line::Fill { array, a, b, c, d } => {
            let filling = filling_of(a, b, c, d);
            match fill(alloc, held, *array, &filling) {
                Ok(held) => Ok(held),
                Err(_) => Err(ExecErr::NoMemory),
            }
        }
        _ => unreachable!(),
    }
}

// A declaration, as a line.
#[tactic(auto, using(crate::proofs::FrontLines::declared_filled, crate::proofs::FrontLines::declared_stopped))]
fn declare_line(
    alloc: Global,
    held: Held,
    plan: &Plan<RankOp>,
    l: &Numbered,
) -> Result<Held, ExecErr>
    requires kind { kind_of_line l.now.line ≡ Kind.Declaration }
    requires known { IsKnown held.declared l.now.line }
    requires empty { plan.now.steps ≡ [] }
    ensures known { (k : Known) → Stands held.declared k → IfOk result (λ h. Stands h.declared (known_after k l.now.line)) }
    ensures ranks { IfOk result (λ h. h.declared.shapes.ranks ≡ held.declared.shapes.ranks) }
    ensures done { (before : Outside) → IsLineFilled result before l.now plan.now (standing held plan.now) }
    ensures cause { (o : Outside) → HasPlanCause result o o }
{
    match declare_held(alloc, held, plan, &l.line) {
        Ok(held) => Ok(held),
        Err(halt) => Err(stopped(l.number, halt)),
    }
}

// A line at the front.
#[tactic(auto, using(crate::proofs::LaterLines::words_stand, crate::proofs::FrontLines::is_words, crate::proofs::FrontLines::reads_nothing))]
fn fill_line<S: Store>(
    alloc: Global,
    held: Held,
    plan: &Plan<RankOp>,
    l: &Numbered,
    store: &mut S,
) -> Result<Held, ExecErr>
    requires known { IsKnown held.declared l.now.line }
    requires front { IsFront l.now.line }
    requires empty { plan.now.steps ≡ [] }
    ensures known { (k : Known) → Stands held.declared k → IfOk result (λ h. Stands h.declared (known_after k l.now.line)) }
    ensures ranks { IfOk result (λ h. h.declared.shapes.ranks ≡ held.declared.shapes.ranks) }
    ensures done { (before : Outside) → OnlyReads before (S.state store.old) →
        IsLineFilled result before l.now plan.now (standing held plan.now) }
    ensures same { OnlyReads (S.state store.old) (S.state store.new) }
    ensures cause { HasPlanCause result (S.state store.old) (S.state store.new) }
{
    match kind_of(&l.line) {
        Kind::Declaration => declare_line(alloc, held, plan, l),
        _ => set_words(alloc, held, plan, l, store),
    }
}

/// Does the lines up to the first exchange or result, and tells how many they are.
pub(crate) fn fill_lines<S: Store>(
    alloc: Global,
    held: Held,
    plan: &Plan<RankOp>,
    lines: &[Numbered],
    store: &mut S,
) -> Result<(Held, usize), ExecErr>
    requires known { MayDeclare held.declared lines.now }
    requires empty { plan.now.steps ≡ [] }
    ensures known { IfOk result (λ x. AreKnown x.0.declared (drop x.1 lines.now)) }
    ensures later { IfOk result (λ x. AreLater (drop x.1 lines.now)) }
    ensures front { IfOk result (λ x. AreFront (take x.1 lines.now)) }
    ensures inside { IfOk result (λ x. x.1 ≤ length lines.now) }
    ensures ranks { IfOk result (λ x. x.0.declared.shapes.ranks ≡ held.declared.shapes.ranks) }
    ensures done { IsFilled result (S.state store.old) plan.now (standing held plan.now) lines.now }
    ensures same { OnlyReads (S.state store.old) (S.state store.new) }
    ensures cause { HasPlanCause result (S.state store.old) (S.state store.new) }
{
    let mut held = held;
    for k in 0..lines.len() {
        let l = &lines[k];
        if is_later(&l.line) {
            return Ok((held, k));
        }
        held = match fill_line(alloc, held, plan, l, store) {
            Ok(next) => next,
            Err(e) => return Err(e),
        };
    }
    Ok((held, lines.len()))
}
