//! Array descriptors, and the check of a new one.

ghost use Rattle.std.specs.Prelude.{◌≡◌, ◌≤◌, ◌^◌, pos, None, Some, true, false, IfOk, IfErr, OnOk, OnErr};
ghost use Rattle.proc_grid.specs.Held.{context_at};
ghost use Rattle.descriptor.specs.Bounds.{part, rows_of, columns_of, row_of, lacks_rank};
ghost use Rattle.descriptor.specs.InfoOf.{info_of, info_number};
ghost use Rattle.descriptor.specs.Entries.{size_entries, source_entries, descinit_entries, seat_entries};

use crate::bounds::{LARGEST, Rows, least, within};
use crate::info::number;
use crate::{Info, Seat};
use proc_grid::Contexts;

/// An array descriptor: its type, which is 1, the context's number, the matrix's rows and columns, the rows and
/// columns of a block, the process row and column of the first block, and the leading dimension of the local array.
/// ScaLAPACK Users' Guide, "Array Descriptor for In-core Dense Matrices".
#[derive(Clone, Copy, Debug, PartialEq, Eq)]
pub struct Desc {
    pub dtype: i64,
    pub ctxt: i64,
    pub m: i64,
    pub n: i64,
    pub mb: i64,
    pub nb: i64,
    pub rsrc: i64,
    pub csrc: i64,
    pub lld: i64,
}

/// The descriptor of an `m` by `n` matrix in blocks of `mb` by `nb`, the first of them on the process (`irsrc`,
/// `icsrc`) of the context `ictxt`, as the process `rank` has it with the leading dimension `lld`. The first bad
/// argument is named, in this order: `m` or `n` outside 0 to 2^24 (-2, -3), `mb` or `nb` outside 1 to 2^24 (-4, -5), a
/// context that doesn't exist or hasn't the rank (-8), a source outside the grid (-6, -7), and a leading dimension
/// below the rank's local rows or 1, or above 2^24 (-9). No memory is taken. ScaLAPACK TOOLS, `DESCINIT`.
#[tactic(auto, using(crate::proofs::InfoLemmas::info_of_front, crate::proofs::InfoLemmas::info_of_rest))]
pub fn descinit(
    contexts: &Contexts,
    m: i64,
    n: i64,
    mb: i64,
    nb: i64,
    irsrc: i64,
    icsrc: i64,
    ictxt: i64,
    lld: i64,
    rank: u32,
) -> Result<Desc, Info>
    ensures passes { let entries = descinit_entries contexts.now m n mb nb irsrc icsrc ictxt lld rank in
        OnOk result (info_of entries ≡ None) }
    ensures refuses { let entries = descinit_entries contexts.now m n mb nb irsrc icsrc ictxt lld rank
        in
        IfErr result (λ info. info_of entries ≡ Some info) }
    ensures desc { IfOk result (λ desc. desc ≡ record {
      dtype = pos 1;
      ctxt = ictxt;
      m = m;
      n = n;
      mb = mb;
      nb = nb;
      rsrc = irsrc;
      csrc = icsrc;
      lld = lld;
    }) }
{
    let sizes = check_sizes(m, n, mb, nb)?;
    let seat = seat_of(contexts, ictxt, rank)?;
    check_sources(seat, sizes, irsrc, icsrc, lld)?;
    Ok(Desc {
        dtype: 1,
        ctxt: ictxt,
        m,
        n,
        mb,
        nb,
        rsrc: irsrc,
        csrc: icsrc,
        lld,
    })
}

/// The check of `descinit` for a process whose seat is known, so that no context is asked: the first bad argument is
/// named, in this order: `m` or `n` outside 0 to 2^24 (-2, -3), `mb` or `nb` outside 1 to 2^24 (-4, -5), a source
/// outside the grid (-6, -7), and a leading dimension below the local rows or 1, or above 2^24 (-9). No memory is
/// taken. ScaLAPACK TOOLS, `DESCINIT`.
pub fn descinit_at(
    seat: Seat,
    m: i64,
    n: i64,
    mb: i64,
    nb: i64,
    irsrc: i64,
    icsrc: i64,
    lld: i64,
) -> Result<(), Info>
    ensures passes { OnOk result (info_of (seat_entries seat m n mb nb irsrc icsrc lld) ≡ None) }
    ensures refuses { IfErr result (λ info. info_of (seat_entries seat m n mb nb irsrc icsrc lld) ≡ Some
        info) }
{
    let sizes = check_sizes(m, n, mb, nb)?;
    check_sources(seat, sizes, irsrc, icsrc, lld)
}

// The rows of a matrix and of a block.
#[derive(Clone, Copy)]
struct Sizes {
    rows: u32,
    block: u32,
    ghost rows_fit: { rows ≤ 2 ^ 24 },
    ghost block_some: { 1 ≤ block },
    ghost block_fits: { block ≤ 2 ^ 24 },
}

// The sizes of a matrix and of its blocks, or the number of the first bad one.
fn check_sizes(m: i64, n: i64, mb: i64, nb: i64) -> Result<Sizes, Info>
    ensures passes { OnOk result (info_of (size_entries m n mb nb) ≡ None) }
    ensures rows { IfOk result (λ sizes. part m ≡ sizes.rows) }
    ensures block { IfOk result (λ sizes. part mb ≡ sizes.block) }
    ensures refuses { IfErr result (λ info. info_of (size_entries m n mb nb) ≡ Some info) }
{
    let rows = within(m, 0, LARGEST, 2)?;
    within(n, 0, LARGEST, 3)?;
    let block = within(mb, 1, LARGEST, 4)?;
    within(nb, 1, LARGEST, 5)?;
    Ok(Sizes { rows, block })
}

// The sources and the leading dimension at a seat, or the number of the first bad one.
fn check_sources(seat: Seat, sizes: Sizes, irsrc: i64, icsrc: i64, lld: i64) -> Result<(), Info>
    ensures passes { let entries = source_entries seat.nprow seat.npcol seat.row sizes.rows sizes.block
        irsrc icsrc lld in
        OnOk result (info_of entries ≡ None) }
    ensures refuses { let entries = source_entries seat.nprow seat.npcol seat.row sizes.rows sizes.block
        irsrc icsrc lld in
        IfErr result (λ info. info_of entries ≡ Some info) }
{
    let source = within(irsrc, 0, seat.nprow - 1, 6)?;
    within(icsrc, 0, seat.npcol - 1, 7)?;
    let rows = Rows {
        count: sizes.rows,
        block: sizes.block,
        source,
        nprow: seat.nprow,
    };
    within(lld, least(rows, seat.row), LARGEST, 9)?;
    Ok(())
}

// Where a rank stands in the context with a number.
#[tactic(auto, using(crate::proofs::ContextLemmas::seat_below))]
fn seat_of(contexts: &Contexts, ictxt: i64, rank: u32) -> Result<Seat, Info>
    ensures good { OnOk result (lacks_rank (context_at contexts.now ictxt) rank ≡ false) }
    ensures rows { IfOk result (λ seat. rows_of (context_at contexts.now ictxt) ≡ seat.nprow) }
    ensures columns { IfOk result (λ seat. columns_of (context_at contexts.now ictxt) ≡ seat.npcol) }
    ensures row { IfOk result (λ seat. row_of (context_at contexts.now ictxt) rank ≡ seat.row) }
    ensures bad { OnErr result (lacks_rank (context_at contexts.now ictxt) rank ≡ true) }
    ensures number { IfErr result (λ info. info ≡ info_number 8) }
{
    let Some(context) = contexts.get(ictxt) else {
        return Err(number(8));
    };
    let info = context.gridinfo(rank);
    if info.myrow < 0 {
        return Err(number(8));
    }
    Ok(Seat {
        nprow: context.nprow(),
        npcol: context.npcol(),
        row: info.myrow as u32,
    })
}
