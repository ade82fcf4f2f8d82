//! The check of a submatrix of a spread matrix.

ghost use Rattle.std.specs.Prelude.{◌≡◌, ◌+◌, ◌-◌, ◌*◌, ◌≤◌, ◌<◌, ◌^◌, ◌++◌, pos, Some, None, true, false, IfOk, IfErr, OnOk, OnErr, is_none};
ghost use Rattle.proc_grid.specs.Grid.{IsGrid};
ghost use Rattle.proc_grid.specs.Held.{context_at};
ghost use Rattle.descriptor.specs.Bounds.{rows_of, columns_of};
ghost use Rattle.descriptor.specs.InfoOf.{info_of, info_number};
ghost use Rattle.descriptor.specs.Entries.{extent_entries, desc_entries, start_entries, matrix_entries, chk1mat_entries};

use crate::bounds::{LARGEST, Rows, are_leads, starts_within, within};
use crate::info::number;
use crate::{Info, Spread};
use proc_grid::Contexts;

/// Checks an `m` by `n` submatrix of a spread matrix from (`ia`, `ja`), where `m`, `n` and the descriptor are the
/// arguments `mpos`, `npos` and `descpos`, and `ia` and `ja` stand before the descriptor. The entries are looked at in
/// this order: `m`, `n`, the nine of the descriptor, `ia`, `ja`; the first bad one is named. No memory is taken.
/// ScaLAPACK TOOLS, `CHK1MAT`.
#[tactic(auto, using(crate::proofs::InfoLemmas::info_of_front, crate::proofs::InfoLemmas::info_of_rest))]
pub fn chk1mat(
    contexts: &Contexts,
    m: i64,
    mpos: u32,
    n: i64,
    npos: u32,
    ia: i64,
    ja: i64,
    spread: &Spread,
    descpos: u32,
) -> Result<(), Info>
    requires rows { mpos ≤ 13 }
    requires columns { npos ≤ 13 }
    requires after { 3 ≤ descpos }
    requires place { descpos ≤ 13 }
    ensures passes { let entries = chk1mat_entries contexts.now m mpos n npos ia ja spread.now descpos
        in
        OnOk result (info_of entries ≡ None) }
    ensures refuses { let entries = chk1mat_entries contexts.now m mpos n npos ia ja spread.now descpos
        in
        IfErr result (λ info. info_of entries ≡ Some info) }
{
    let extents = check_extents(m, mpos, n, npos)?;
    check_matrix(contexts, extents, ia, ja, spread, descpos)
}

// The extents of a submatrix.
#[derive(Clone, Copy)]
pub(crate) struct Extents {
    pub(crate) rows: u32,
    pub(crate) columns: u32,
    ghost rows_fit: { rows ≤ 2 ^ 24 },
    ghost columns_fit: { columns ≤ 2 ^ 24 },
}

// The extents of a submatrix, or the number of the first bad one.
#[tactic(auto, unfolding(crate::specs::Entries::extent_entries))]
pub(crate) fn check_extents(m: i64, mpos: u32, n: i64, npos: u32) -> Result<Extents, Info>
    requires rows { mpos ≤ 100 }
    requires columns { npos ≤ 100 }
    ensures passes { OnOk result (info_of (extent_entries m mpos n npos) ≡ None) }
    ensures rows { IfOk result (λ extents. m ≡ pos extents.rows) }
    ensures columns { IfOk result (λ extents. n ≡ pos extents.columns) }
    ensures refuses { IfErr result (λ info. info_of (extent_entries m mpos n npos) ≡ Some info) }
{
    let rows = within(m, 0, LARGEST, mpos)?;
    let columns = within(n, 0, LARGEST, npos)?;
    Ok(Extents { rows, columns })
}

// The descriptor's entries and the starts of a submatrix.
#[tactic(auto, using(crate::proofs::InfoLemmas::info_of_front, crate::proofs::InfoLemmas::info_of_rest), unfolding(crate::specs::Entries::matrix_entries))]
pub(crate) fn check_matrix(
    contexts: &Contexts,
    extents: Extents,
    i: i64,
    j: i64,
    spread: &Spread,
    descpos: u32,
) -> Result<(), Info>
    requires after { 3 ≤ descpos }
    requires place { descpos ≤ 15 }
    ensures passes { let entries = matrix_entries contexts.now (pos extents.rows) (pos extents.columns)
        i j spread.now descpos in
        OnOk result (info_of entries ≡ None) }
    ensures refuses { let entries = matrix_entries contexts.now (pos extents.rows) (pos extents.columns)
        i j spread.now descpos in
        IfErr result (λ info. info_of entries ≡ Some info) }
{
    let whole = check_desc(contexts, spread, descpos)?;
    check_starts(whole, extents, i, j, spread, descpos)
}

// The starts of a submatrix.
#[tactic(auto, unfolding(crate::specs::Entries::start_entries))]
fn check_starts(
    whole: Extents,
    extents: Extents,
    i: i64,
    j: i64,
    spread: &Spread,
    descpos: u32,
) -> Result<(), Info>
    requires after { 3 ≤ descpos }
    requires place { descpos ≤ 15 }
    requires rows { spread.now.desc.m ≡ pos whole.rows }
    requires columns { spread.now.desc.n ≡ pos whole.columns }
    ensures passes { let entries = start_entries (pos extents.rows) (pos extents.columns) i j spread.now
        descpos in
        OnOk result (info_of entries ≡ None) }
    ensures refuses { let entries = start_entries (pos extents.rows) (pos extents.columns) i j
        spread.now descpos in
        IfErr result (λ info. info_of entries ≡ Some info) }
{
    starts_within(i, extents.rows, whole.rows, descpos - 2)?;
    starts_within(j, extents.columns, whole.columns, descpos - 1)
}

// The nine entries of a descriptor; where they are good, the extents of its matrix.
#[tactic(auto, unfolding(crate::specs::Entries::desc_entries))]
fn check_desc(contexts: &Contexts, spread: &Spread, descpos: u32) -> Result<Extents, Info>
    requires { descpos ≤ 15 }
    ensures passes { OnOk result (info_of (desc_entries contexts.now spread.now descpos) ≡ None) }
    ensures rows { IfOk result (λ whole. spread.now.desc.m ≡ pos whole.rows) }
    ensures columns { IfOk result (λ whole. spread.now.desc.n ≡ pos whole.columns) }
    ensures refuses { let entries = desc_entries contexts.now spread.now descpos in
        IfErr result (λ info. info_of entries ≡ Some info) }
{
    let desc = &spread.desc;
    let first = 100 * descpos;
    within(desc.dtype, 1, 1, first + 1)?;
    let shape = check_context(contexts, desc.ctxt, first + 2)?;
    let count = within(desc.m, 0, LARGEST, first + 3)?;
    let columns = within(desc.n, 0, LARGEST, first + 4)?;
    let block = within(desc.mb, 1, LARGEST, first + 5)?;
    within(desc.nb, 1, LARGEST, first + 6)?;
    let source = within(desc.rsrc, 0, shape.nprow - 1, first + 7)?;
    within(desc.csrc, 0, shape.npcol - 1, first + 8)?;
    let rows = Rows {
        count,
        block,
        source,
        nprow: shape.nprow,
    };
    if !are_leads(spread.llds.as_slice(), rows, shape.npcol) {
        return Err(number(first + 9));
    }
    Ok(Extents {
        rows: count,
        columns,
    })
}

// The process rows and columns of a context.
#[derive(Clone, Copy)]
struct Shape {
    nprow: u32,
    npcol: u32,
    ghost some_rows: { 0 < nprow },
    ghost few_rows: { nprow ≤ 64 },
    ghost some_columns: { 0 < npcol },
    ghost few_columns: { npcol ≤ 64 },
}

// The shape of the context with a number.
fn check_context(contexts: &Contexts, ctxt: i64, place: u32) -> Result<Shape, Info>
    requires { place ≤ 2000 }
    ensures good { OnOk result (is_none (context_at contexts.now ctxt) ≡ false) }
    ensures rows { IfOk result (λ shape. rows_of (context_at contexts.now ctxt) ≡ shape.nprow) }
    ensures columns { IfOk result (λ shape. columns_of (context_at contexts.now ctxt) ≡ shape.npcol) }
    ensures bad { OnErr result (is_none (context_at contexts.now ctxt) ≡ true) }
    ensures number { IfErr result (λ info. info ≡ info_number place) }
{
    match contexts.get(ctxt) {
        Some(context) => Ok(Shape {
            nprow: context.nprow(),
            npcol: context.npcol(),
        }),
        None => Err(number(place)),
    }
}
