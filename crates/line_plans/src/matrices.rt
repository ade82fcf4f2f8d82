//! Matrices are declared.

ghost use Rattle.std.specs.Prelude.{◌≡◌, ◌≤◌, ◌<◌, ◌*◌, ◌^◌, false, replicate, length, IfOk};
ghost use Rattle.std.specs.List.{AllByRecursion};
ghost use Rattle.msg_core.specs.Plans.{word_count};
ghost use Rattle.pack_words.specs.GridState.{GridState, rank_steps};
ghost use Rattle.pack_words.specs.GridShapes.{IsSize};
ghost use Rattle.pack_words.specs.GridPlans.{IsOf};
ghost use Rattle.program_meaning.specs.Declarations.{matrix_line, words_in};
ghost use Rattle.line_plans.specs.Exact.{IsExact};
ghost use Rattle.line_plans.specs.Fitting.{AreAlike};
ghost use Rattle.line_plans.specs.Standing.{state_of, IsGrown, IsArrayMore, AreSizes};

use crate::arrays::with_array;
use crate::declared::Declared;
use crate::grown::Grown;
use crate::halt::Halt;
use crate::settled::{counted, words_with};
use msg_core::Plan;
use pack_words::RankOp;
use std::alloc::{AllocError, Global};

// One size for every rank, and the words of all.
#[tactic(auto, using(crate::proofs::SizeLaws::all_sizes_alike, crate::proofs::SizeLaws::words_alike, crate::proofs::SizeLaws::are_alike))]
fn sizes_of(alloc: Global, ranks: u32, lld: u32, cols: u32) -> Result<Vec<(u32, u32)>, AllocError>
    requires some { 1 ≤ lld }
    requires lead { lld ≤ 2 ^ 24 }
    requires area { lld * cols ≤ 2 ^ 26 }
    ensures sizes { IfOk result (λ sizes. sizes.items ≡ replicate ranks (lld, cols)) }
    ensures each { IfOk result (λ sizes. AllByRecursion IsSize sizes.items) }
    ensures alike { IfOk result (λ sizes. AreAlike ranks sizes.items) }
    ensures words { IfOk result (λ sizes. words_in sizes.items ≡ ranks * (lld * cols)) }
    ensures whole { IfOk result (λ sizes. length sizes.items ≡ ranks) }
{
    let sizes = vec![in alloc; (lld, cols); ranks as usize]?;
    Ok(sizes)
}

// The words of a matrix on all ranks.
fn area_of(ranks: u32, lld: u32, cols: u32) -> u64
    requires ranks { ranks ≤ 64 }
    requires lead { lld ≤ 2 ^ 24 }
    requires columns { cols ≤ 2 ^ 24 }
    ensures area { result ≡ ranks * (lld * cols) }
    ensures few { result ≤ 2 ^ 60 }
{
    u64::from(ranks) * (u64::from(lld) * u64::from(cols))
}

/// MATRIX: on every rank an array of `lld` rows and `cols` columns.
pub(crate) fn declare_matrix(
    alloc: Global,
    declared: Declared,
    plan: &Plan<RankOp>,
    lld: u32,
    cols: u32,
) -> Result<Grown, Halt>
    requires some { 1 ≤ lld }
    requires lead { lld ≤ 2 ^ 24 }
    requires columns { cols ≤ 2 ^ 24 }
    requires room { length declared.spreads.items < 64 }
    ensures more { IfOk result (λ x. IsArrayMore false declared x.declared) }
    ensures sizes { IfOk result (λ x. AreSizes x.sizes) }
    ensures done { (state : GridState) → IsOf declared.shapes plan.now state → IsExact declared.shapes state →
        IsGrown result plan.now state (matrix_line lld cols (state_of declared plan.now state)) }
{
    let ranks = declared.shapes.ranks();
    let area = area_of(ranks, lld, cols);
    if let Err(halt) = counted(words_with(&declared, plan, area)) {
        return Err(halt);
    }
    let Ok(sizes) = sizes_of(alloc, ranks, lld, cols) else {
        return Err(Halt::NoMemory);
    };
    let own = declared.words + area;
    with_array(declared, None, sizes, own)
}
