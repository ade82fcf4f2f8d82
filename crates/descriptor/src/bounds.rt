//! Bounds of single entries.

ghost use Rattle.std.specs.Prelude.{◌≡◌, ◌+◌, ◌*◌, ◌-◌, ◌≤◌, ◌<◌, ◌^◌, ◌==◌, ℤ, pos, true, false, not, length, max, IfOk, IfErr, OnOk, OnErr, ◌≤ℤ◌};
ghost use Rattle.std.specs.List.{list_any};
ghost use Rattle.index_tools.specs.Spread.{below, spread};
ghost use Rattle.descriptor.specs.Bounds.{is_outside, starts_outside, part, least_lld, has_bad_lld, some_below};
ghost use Rattle.descriptor.specs.InfoOf.{info_number};

use crate::info::{Info, number};
use index_tools::numroc;

// The greatest size, block and leading dimension.
pub(crate) const LARGEST: u32 = 1 << 24;

// The value where it is at least `low` and at most `high`, and else the number of its place.
#[tactic(auto, unfolding(crate::specs::Bounds::is_outside))]
pub(crate) fn within(value: i64, low: u32, high: u32, place: u32) -> Result<u32, Info>
    requires { place ≤ 2000 }
    ensures good { OnOk result (is_outside value low high ≡ false) }
    ensures value { IfOk result (λ n. value ≡ pos n) }
    ensures part { IfOk result (λ n. part value ≡ n) }
    ensures low { IfOk result (λ n. low ≤ n) }
    ensures high { IfOk result (λ n. n ≤ high) }
    ensures bad { OnErr result (is_outside value low high ≡ true) }
    ensures number { IfErr result (λ info. info ≡ info_number place) }
{
    if value < i64::from(low) || value > i64::from(high) {
        return Err(number(place));
    }
    Ok(value as u32)
}

// A start, counted from 1, from which `extent` indices lie in the `whole`, or else the number of its place.
#[tactic(auto, using(crate::proofs::BoundsLemmas::starts_within))]
pub(crate) fn starts_within(start: i64, extent: u32, whole: u32, place: u32) -> Result<(), Info>
    requires extent { extent ≤ 2 ^ 24 }
    requires whole { whole ≤ 2 ^ 24 }
    requires place { place ≤ 2000 }
    ensures good { OnOk result (starts_outside start (pos extent) (pos whole) ≡ false) }
    ensures bad { OnErr result (starts_outside start (pos extent) (pos whole) ≡ true) }
    ensures number { IfErr result (λ info. info ≡ info_number place) }
{
    within(start, 1, (whole + 1).saturating_sub(extent), place)?;
    Ok(())
}

// Rows in blocks over process rows: how many, in blocks of how many, the process row of the first, and of how many.
#[derive(Clone, Copy)]
pub(crate) struct Rows {
    pub(crate) count: u32,
    pub(crate) block: u32,
    pub(crate) source: u32,
    pub(crate) nprow: u32,
    ghost count_fits: { count ≤ 2 ^ 24 },
    ghost block_some: { 1 ≤ block },
    ghost block_fits: { block ≤ 2 ^ 24 },
    ghost source_below: { source < nprow },
    ghost few: { nprow ≤ 64 },
}

// The least leading dimension of a process row: the number of its rows, and at least 1.
pub(crate) fn least(rows: Rows, row: u32) -> u32
    requires { row < rows.nprow }
    ensures least { result ≡ least_lld rows.count rows.block rows.source rows.nprow row }
    ensures fits { result ≤ 2 ^ 24 }
{
    numroc(rows.count, rows.block, row, rows.source, rows.nprow).max(1)
}

// A leading dimension of at least the least of its process row.
fn is_lead(lld: i64, rows: Rows, row: u32) -> bool
    requires { row < rows.nprow }
    ensures { is_outside lld (least_lld rows.count rows.block rows.source rows.nprow row) (2 ^ 24) ≡ not
        result }
{
    within(lld, least(rows, row), LARGEST, 0).is_ok()
}

// One leading dimension for each process in row-major order, each at least the least of its process.
pub(crate) fn are_leads(llds: &[i64], rows: Rows, npcol: u32) -> bool
    requires columns { 0 < npcol }
    requires few { npcol ≤ 64 }
    ensures { has_bad_lld llds.now rows.count rows.block rows.source rows.nprow npcol ≡ not result }
{
    if llds.len() != (rows.nprow * npcol) as usize {
        return false;
    }
    for k in 0..rows.nprow * npcol {
        if !is_lead(llds[k as usize], rows, k / npcol) {
            return false;
        }
    }
    true
}
