//! Which rows and columns of a spread matrix each rank has.

ghost use Rattle.std.specs.Prelude.{◌≡◌, ◌^◌, ◌≤◌, ◌<◌, ℕ, ℤ, IfOk, pos, length, slice_get, Option};
ghost use Rattle.proc_grid.specs.Grid.{IsGrid, place_of};
ghost use Rattle.descriptor.specs.Bounds.{part};
ghost use Rattle.descriptor.specs.Good.{layout_of, IsGood};
ghost use Rattle.array_contents.specs.LocalWords.{local_word, spread_word, IsOn};
ghost use Rattle.array_contents.specs.Shares.{AreShares, IsSized, rows_by, columns_by};

use crate::local_words::{LocalWords, Source};
use descriptor::Spread;
use proc_grid::Context;
use spread_cells::owned_lists;
use std::alloc::{AllocError, Global};

/// The rows of a spread matrix that each process row has, and the columns that each process column has.
#[derive(Drop)]
pub(crate) struct Shares {
    pub(crate) rows: Vec<Vec<u32>>,
    pub(crate) columns: Vec<Vec<u32>>,
}

// A number of at most 2^24, as such.
fn natural(value: i64) -> u32
    requires whole { value ≡ pos (part value) }
    requires few { part value ≤ 2 ^ 24 }
    ensures { result ≡ part value }
{
    value as u32
}

// The place of a rank in a grid, if it is there.
fn place(ctx: &Context, rank: u32) -> Option<(u32, u32)>
    ensures place { result ≡ place_of ctx.now rank }
    ensures grid { IsGrid ctx.now }
{
    let _rows = ctx.nprow();
    let info = ctx.gridinfo(rank);
    if info.myrow < 0 {
        return None;
    }
    Some((info.myrow as u32, info.mycol as u32))
}

/// How the rows and columns of a matrix are shared out, which is spread so.
pub(crate) fn shares_of(alloc: Global, spread: &Spread, ctx: &Context) -> Result<Shares, AllocError>
    requires { IsGood spread.now ctx.now }
    ensures shares { IfOk result (AreShares (layout_of spread.now ctx.now)) }
    ensures grid { IsGrid ctx.now }
{
    let desc = &spread.desc;
    let (nprow, npcol) = (ctx.nprow(), ctx.npcol());
    let (mb, nb) = (natural(desc.mb), natural(desc.nb));
    let rows = owned_lists(alloc, natural(desc.m), mb, natural(desc.rsrc), nprow)?;
    let columns = owned_lists(alloc, natural(desc.n), nb, natural(desc.csrc), npcol)?;
    Ok(Shares { rows, columns })
}

/// What the words of a rank's array become.
pub(crate) fn words_on<'a>(
    source: &'a Source<'a>,
    shares: &'a Shares,
    spread: &Spread,
    ctx: &Context,
    rank: u32,
) -> LocalWords<'a>
    requires shares { AreShares (layout_of spread.now ctx.now) shares.now }
    requires sized { IsSized (layout_of spread.now ctx.now) source.now }
    ensures on { (lld : ℕ) → length (rows_by (layout_of spread.now ctx.now) (place_of ctx.now rank)) ≤ lld → IsOn result lld }
    ensures words { (j i : ℕ) (w : ℤ) → local_word result j i w ≡
        spread_word source.now (rows_by (layout_of spread.now ctx.now) (place_of ctx.now rank))
        (slice_get (columns_by (layout_of spread.now ctx.now) (place_of ctx.now rank)) j) i w }
{
    match place(ctx, rank) {
        Some((p, q)) => LocalWords::Spread {
            source,
            rows: &shares.rows[p as usize],
            columns: &shares.columns[q as usize],
        },
        None => LocalWords::Spread {
            source,
            rows: &[],
            columns: &[],
        },
    }
}
