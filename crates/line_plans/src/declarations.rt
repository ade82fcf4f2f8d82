//! Declarations.

ghost use Rattle.std.specs.Prelude.{◌≡◌, IfOk};
ghost use Rattle.pack_words.specs.GridState.{GridState};
ghost use Rattle.pack_words.specs.GridPlans.{IsOf};
ghost use Rattle.grid_lang.specs.Facts.{Known, known_after};
ghost use Rattle.program_meaning.specs.Programs.{line_done, no_loads};
ghost use Rattle.line_plans.specs.Exact.{IsExact};
ghost use Rattle.line_plans.specs.Kinds.{kind_of_line};
ghost use Rattle.line_plans.specs.Known.{Stands, IsKnown};
ghost use Rattle.line_plans.specs.Standing.{state_of, IsGrown, AreSizes};

use crate::array_line::{ArrayLine, declare_array, wide, widened};
use crate::declared::Declared;
use crate::grids::declare_grid;
use crate::grown::Grown;
use crate::halt::Halt;
use crate::kind::Kind;
use crate::maps::declare_map;
use crate::matrices::declare_matrix;
use grid_lang::Line;
use msg_core::Plan;
use pack_words::RankOp;
use std::alloc::Global;

/// What is declared after a GRID, MAP, ARRAY or MATRIX line, and the sizes of its array by rank.
#[tactic(auto, using(crate::proofs::KnownLaws::known_grid, crate::proofs::KnownLaws::known_grids, crate::proofs::KnownLaws::known_count, crate::proofs::KnownLaws::grid_stands, crate::proofs::KnownLaws::array_stands), unfolding(program_meaning::specs::Programs::line_done, grid_lang::specs::Facts::Keeps, grid_lang::specs::Facts::declared_after))]
pub fn declare(
    alloc: Global,
    declared: Declared,
    plan: &Plan<RankOp>,
    line: &Line,
) -> Result<Grown, Halt>
    requires kind { kind_of_line line.now ≡ Kind.Declaration }
    requires known { IsKnown declared line.now }
    ensures known { (k : Known) → Stands declared k → IfOk result (λ x. Stands x.declared (known_after k line.now)) }
    ensures ranks { IfOk result (λ x. x.declared.shapes.ranks ≡ declared.shapes.ranks) }
    ensures sizes { IfOk result (λ x. AreSizes x.sizes) }
    ensures done { (state : GridState) → IsOf declared.shapes plan.now state → IsExact declared.shapes state →
        IsGrown result plan.now state (line_done no_loads (state_of declared plan.now state) line.now) }
{
    match line {
        Line::Grid {
            order,
            nprow,
            npcol,
        } => declare_grid(alloc, declared, *order, *nprow, *npcol),
        Line::Map {
            nprow,
            npcol,
            ranks,
        } => declare_map(alloc, declared, *nprow, *npcol, ranks),
        Line::Array {
            name: _,
            grid,
            m,
            n,
            mb,
            nb,
            rsrc,
            csrc,
            lld,
        } => {
            let array = ArrayLine {
                grid: *grid,
                m: wide(*m),
                n: wide(*n),
                mb: wide(*mb),
                nb: wide(*nb),
                rsrc: wide(*rsrc),
                csrc: wide(*csrc),
                lld: widened(*lld),
            };
            declare_array(alloc, declared, plan, &array)
        }
        Line::Matrix { name: _, lld, cols } => declare_matrix(alloc, declared, plan, *lld, *cols),
        _ => unreachable!(),
    }
}
