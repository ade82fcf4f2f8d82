//! Declarations with the arrays of all ranks.

ghost use Rattle.std.specs.Prelude.{◌≡◌, [], IfOk};
ghost use Rattle.grid_lang.specs.Facts.{Known, known_after};
ghost use Rattle.program_meaning.specs.Programs.{line_done, no_loads};
ghost use Rattle.line_plans.specs.Kinds.{kind_of_line};
ghost use Rattle.line_plans.specs.Known.{Stands, IsKnown};
ghost use Rattle.line_plans.specs.Standing.{grown_by, sizes_in, AreSizes};
ghost use Rattle.grid_exec.specs.Holding.{resting};
ghost use Rattle.grid_exec.specs.Reading.{standing, IsHeld};

use crate::held::Held;
use array_contents::ArrayContents;
use grid_lang::Line;
use line_plans::{Grown, Halt, Kind, declare};
use msg_core::Plan;
use pack_words::RankOp;
use std::alloc::{AllocError, Global};

// The arrays with one more on every rank, where sizes are told.
fn grow(
    alloc: Global,
    contents: ArrayContents,
    sizes: Option<Vec<(u32, u32)>>,
) -> Result<ArrayContents, AllocError>
    requires { AreSizes sizes }
    ensures { IfOk result (λ c. resting c ≡ grown_by (sizes_in sizes) (resting contents)) }
{
    match sizes {
        Some(sizes) => contents.with_array(alloc, &sizes),
        None => Ok(contents),
    }
}

// A GRID, MAP, ARRAY or MATRIX line: what is declared after it, with its array of zeros.
pub(crate) fn declare_held(
    alloc: Global,
    held: Held,
    plan: &Plan<RankOp>,
    line: &Line,
) -> Result<Held, Halt>
    requires kind { kind_of_line line.now ≡ Kind.Declaration }
    requires known { IsKnown held.declared line.now }
    requires empty { plan.now.steps ≡ [] }
    ensures known { (k : Known) → Stands held.declared k → IfOk result (λ h. Stands h.declared (known_after k line.now)) }
    ensures ranks { IfOk result (λ h. h.declared.shapes.ranks ≡ held.declared.shapes.ranks) }
    ensures done { IsHeld result plan.now (line_done no_loads (standing held plan.now) line.now) }
{
    let Held { declared, contents } = held;
    match declare(alloc, declared, plan, line) {
        Ok(Grown { declared, sizes }) => match grow(alloc, contents, sizes) {
            Ok(contents) => Ok(Held { declared, contents }),
            Err(_) => Err(Halt::NoMemory),
        },
        Err(halt) => Err(halt),
    }
}
