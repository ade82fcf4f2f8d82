//! The processes of an ARRAY line.

ghost use Rattle.std.specs.List.{AllByRecursion};
ghost use Rattle.std.specs.Prelude.{◌≡◌, ◌<◌, ◌≤◌, ◌^◌, ◌*◌, ◌/◌, length, max, slice_index_or, None, Some, pos, true, IfOk, IfErr, IfSome, OnOk};
ghost use Rattle.index_tools.specs.Spread.{spread, below};
ghost use Rattle.proc_grid.specs.FirstOf.{first_of};
ghost use Rattle.proc_grid.specs.Grid.{IsGrid, place_of};
ghost use Rattle.proc_grid.specs.Held.{context_at};
ghost use Rattle.descriptor.specs.Bounds.{part, least_lld};
ghost use Rattle.descriptor.specs.InfoOf.{info_of};
ghost use Rattle.program_meaning.specs.Declarations.{lead_on, leads_on, process_info, spread_of, size_by, sizes_over, words_in, array_line};
ghost use Rattle.line_plans.specs.ArrayLines.{words_of, entries_on, IsNumber, IsGoodLine, HasLeads, IsInfoHalt, HasLead, IsMeasured, IsRefusedArray};
ghost use Rattle.line_plans.specs.Exact.{IsExact};
ghost use Rattle.line_plans.specs.Standing.{state_of, IsGrown, IsArrayMore, AreSizes};
ghost use Rattle.pack_words.specs.GridState.{GridState};
ghost use Rattle.pack_words.specs.GridPlans.{IsOf};

use crate::arrays::with_array;
use crate::declared::Declared;
use crate::grown::Grown;
use crate::halt::Halt;
use crate::settled::{counted, words_with};
use descriptor::{Desc, Info, Llds, Spread, descinit};
use index_tools::numroc;
use msg_core::Plan;
use pack_words::RankOp;
use proc_grid::{Context, Contexts};
use program_meaning::ExecFault;
use std::alloc::{AllocError, Global};

// The greatest leading dimension.
const LARGEST: i64 = 1 << 24;

/// The words of an ARRAY line but for its name.
#[derive(Clone, Copy, Debug)]
pub(crate) struct ArrayLine {
    pub(crate) grid: u32,
    pub(crate) m: i64,
    pub(crate) n: i64,
    pub(crate) mb: i64,
    pub(crate) nb: i64,
    pub(crate) rsrc: i64,
    pub(crate) csrc: i64,
    pub(crate) lld: Option<i64>,
}

/// A line's number, as DESCINIT takes it.
pub(crate) fn wide(value: i32) -> i64
    ensures { result ≡ value }
{
    value as i64
}

/// A line's leading dimension, where it has one.
pub(crate) fn widened(lld: Option<i32>) -> Option<i64>
    ensures { result ≡ lld }
{
    match lld {
        Some(lld) => Some(wide(lld)),
        None => None,
    }
}

// A number of at most 2^24, as such.
pub(crate) fn natural(value: i64) -> u32
    requires whole { value ≡ pos (part value) }
    requires few { part value ≤ 2 ^ 24 }
    ensures { result ≡ part value }
{
    value as u32
}

// A grid's number as a context.
fn context(grid: u32) -> i64
    ensures { result ≡ pos grid }
{
    grid as i64
}

// What DESCINIT finds on the process of a rank, with this leading dimension.
fn check_process(contexts: &Contexts, line: &ArrayLine, lld: i64, rank: u32) -> Result<(), Info>
    ensures passes { OnOk result (info_of (entries_on contexts.now (words_of line.now) lld rank) ≡ None) }
    ensures refuses { IfErr result (λ i. info_of (entries_on contexts.now (words_of line.now) lld rank) ≡ Some i) }
{
    match descinit(
        contexts,
        line.m,
        line.n,
        line.mb,
        line.nb,
        line.rsrc,
        line.csrc,
        context(line.grid),
        lld,
        rank,
    ) {
        Ok(_desc) => Ok(()),
        Err(info) => Err(info),
    }
}

// The least leading dimension on a process row.
fn least_lead(line: &ArrayLine, ctx: &Context, prow: u32) -> u32
    requires good { IsGoodLine (words_of line.now) ctx.now }
    requires row { prow < ctx.now.nprow }
    ensures lead { result ≡ least_lld (part line.now.m) (part line.now.mb) (part line.now.rsrc) ctx.now.nprow prow }
    ensures few { result ≤ 2 ^ 24 }
{
    let rows = natural(line.m);
    let block = natural(line.mb);
    let source = natural(line.rsrc);
    numroc(rows, block, prow, source, ctx.nprow()).max(1)
}

// The leading dimension on the k-th process, row by row, or what DESCINIT finds there.
fn lead_of(contexts: &Contexts, ctx: &Context, line: &ArrayLine, k: u32) -> Result<i64, Info>
    requires context { context_at contexts.now (pos line.now.grid) ≡ Some ctx.now }
    requires k { k < length ctx.now.ranks }
    ensures inside { k < length ctx.now.ranks }
    ensures lead { IfOk result (λ l. l ≡ lead_on (words_of line.now) ctx.now.nprow (k / ctx.now.npcol) line.now.lld) }
    ensures passes { OnOk result (process_info contexts.now (words_of line.now) ctx.now k ≡ None) }
    ensures refuses { IfErr result (λ i. process_info contexts.now (words_of line.now) ctx.now k ≡ Some i) }
{
    let rank = ctx.ranks()[k as usize];
    match line.lld {
        Some(lld) => match check_process(contexts, line, lld, rank) {
            Ok(()) => Ok(lld),
            Err(info) => Err(info),
        },
        None => match check_process(contexts, line, LARGEST, rank) {
            Ok(()) => Ok(least_lead(line, ctx, k / ctx.npcol()) as i64),
            Err(info) => Err(info),
        },
    }
}

// The leading dimensions of all processes, row by row, or what DESCINIT finds on the first that it refuses.
fn leads_of(
    alloc: Global,
    contexts: &Contexts,
    ctx: &Context,
    line: &ArrayLine,
) -> Result<Vec<i64>, Halt>
    requires context { context_at contexts.now (pos line.now.grid) ≡ Some ctx.now }
    ensures grid { IsGrid ctx.now }
    ensures leads { IfOk result (λ v. v.items ≡ leads_on (words_of line.now) ctx.now) }
    ensures passes { OnOk result (first_of (process_info contexts.now (words_of line.now) ctx.now) (length ctx.now.ranks) ≡ None) }
    ensures refuses { IfErr result (λ h. IsInfoHalt h (first_of (process_info contexts.now (words_of line.now) ctx.now) (length ctx.now.ranks))) }
{
    let Ok(mut leads) = Vec::with_capacity(alloc, ctx.ranks().len()) else {
        return Err(Halt::NoMemory);
    };
    for k in 0..ctx.ranks().len() as u32 {
        match lead_of(contexts, ctx, line, k) {
            Ok(lead) => {
                let Ok(()) = leads.push(lead) else {
                    return Err(Halt::NoMemory);
                };
            }
            Err(info) => return Err(Halt::Fault(ExecFault::Info(info))),
        }
    }
    Ok(leads)
}

// The place of a rank in a grid, if it is there.
fn place(ctx: &Context, rank: u32) -> Option<(u32, u32)>
    ensures place { result ≡ place_of ctx.now rank }
{
    let info = ctx.gridinfo(rank);
    if info.myrow < 0 {
        return None;
    }
    Some((info.myrow as u32, info.mycol as u32))
}

// The n-th leading dimension, which DESCINIT passes.
fn lead_at(leads: &[i64], n: u32) -> u32
    requires inside { n < length leads.now }
    requires good { IsNumber (slice_index_or leads.now n (pos 0)) 1 (2 ^ 24) }
    ensures lead { result ≡ part (slice_index_or leads.now n (pos 0)) }
    ensures least { 1 ≤ result }
    ensures most { result ≤ 2 ^ 24 }
{
    leads[n as usize] as u32
}

// The local columns on a process column, one at least.
fn columns_on(line: &ArrayLine, ctx: &Context, pcol: u32) -> u32
    requires good { IsGoodLine (words_of line.now) ctx.now }
    requires column { pcol < ctx.now.npcol }
    ensures columns { result ≡ max 1 (below (spread (part line.now.nb) (part line.now.csrc) ctx.now.npcol) pcol (part line.now.n)) }
    ensures few { result ≤ 2 ^ 24 }
{
    let columns = natural(line.n);
    let block = natural(line.nb);
    let source = natural(line.csrc);
    numroc(columns, block, pcol, source, ctx.npcol()).max(1)
}

// The array's size on a rank.
#[tactic(auto, unfolding(program_meaning::specs::Declarations::spread_of))]
fn size_at(leads: &[i64], line: &ArrayLine, ctx: &Context, rank: u32) -> (u32, u32)
    requires good { IsGoodLine (words_of line.now) ctx.now }
    requires fit { HasLeads (words_of line.now) ctx.now }
    requires leads { leads.now ≡ leads_on (words_of line.now) ctx.now }
    ensures size { result ≡ size_by (spread_of (words_of line.now) ctx.now) ctx.now (place_of ctx.now rank) }
    ensures lead { HasLead result }
{
    match place(ctx, rank) {
        Some((prow, pcol)) => {
            let lead = lead_at(leads, prow * ctx.npcol() + pcol);
            (lead, columns_on(line, ctx, pcol))
        }
        None => (1, 0),
    }
}

// The words of an array of this size.
fn area(size: (u32, u32)) -> u64
    requires { HasLead size }
    ensures words { result ≡ size.0 * size.1 }
    ensures few { result ≤ 2 ^ 48 }
{
    u64::from(size.0) * u64::from(size.1)
}

// The array's sizes on all ranks, and how many words they have.
fn sizes_of(
    alloc: Global,
    leads: &[i64],
    line: &ArrayLine,
    ctx: &Context,
    ranks: u32,
) -> Result<(Vec<(u32, u32)>, u64), AllocError>
    requires good { IsGoodLine (words_of line.now) ctx.now }
    requires fit { HasLeads (words_of line.now) ctx.now }
    requires leads { leads.now ≡ leads_on (words_of line.now) ctx.now }
    requires ranks { ranks ≤ 64 }
    ensures sizes { IfOk result (λ x. x.0.items ≡ sizes_over (spread_of (words_of line.now) ctx.now) ctx.now ranks) }
    ensures words { IfOk result (λ x. x.1 ≡ words_in x.0.items) }
    ensures few { IfOk result (λ x. x.1 ≤ 2 ^ 60) }
    ensures leads { IfOk result (λ x. AllByRecursion HasLead x.0.items) }
{
    let mut sizes = Vec::with_capacity(alloc, ranks as usize)?;
    let mut words: u64 = 0;
    for rank in 0..ranks {
        let size = size_at(leads, line, ctx, rank);
        sizes.push(size)?;
        words += area(size);
    }
    Ok((sizes, words))
}

// How a line's array is spread, its sizes by rank, and how many words they have.
#[derive(Debug, Drop)]
struct Measured {
    spread: Spread,
    sizes: Vec<(u32, u32)>,
    words: u64,
}

// The first process's leading dimension.
fn first_lead(leads: &[i64]) -> i64
    ensures { result ≡ slice_index_or leads.now 0 (pos 0) }
{
    if leads.len() == 0 {
        return 0;
    }
    leads[0]
}

// How the line's array is spread over its grid.
fn measure_line(alloc: Global, declared: &Declared, line: &ArrayLine) -> Result<Measured, Halt>
    requires grid { line.now.grid < length declared.now.contexts }
    ensures ok { IfOk result (λ m. IsMeasured declared.now.contexts declared.now.shapes.ranks (words_of line.now) m.spread m.sizes.items m.words) }
    ensures err { IfErr result (λ h. IsRefusedArray h declared.now.contexts (words_of line.now)) }
{
    let ctx = declared.grid(line.grid);
    let leads = match leads_of(alloc, &declared.contexts, ctx, line) {
        Ok(leads) => leads,
        Err(halt) => return Err(halt),
    };
    let ranks = declared.shapes.ranks();
    let Ok((sizes, words)) = sizes_of(alloc, &leads, line, ctx, ranks) else {
        return Err(Halt::NoMemory);
    };
    let desc = Desc {
        dtype: 1,
        ctxt: context(line.grid),
        m: line.m,
        n: line.n,
        mb: line.mb,
        nb: line.nb,
        rsrc: line.rsrc,
        csrc: line.csrc,
        lld: first_lead(&leads),
    };
    let llds = Llds::new(leads);
    Ok(Measured {
        spread: Spread { desc, llds },
        sizes,
        words,
    })
}

/// ARRAY: a matrix spread over a grid.
pub(crate) fn declare_array(
    alloc: Global,
    declared: Declared,
    plan: &Plan<RankOp>,
    line: &ArrayLine,
) -> Result<Grown, Halt>
    requires grid { line.now.grid < length declared.contexts }
    requires room { length declared.spreads.items < 64 }
    ensures more { IfOk result (λ x. IsArrayMore true declared x.declared) }
    ensures sizes { IfOk result (λ x. AreSizes x.sizes) }
    ensures done { (state : GridState) → IsOf declared.shapes plan.now state → IsExact declared.shapes state →
        IsGrown result plan.now state (array_line (words_of line.now) (state_of declared plan.now state)) }
{
    let Measured {
        spread,
        sizes,
        words: area,
    } = match measure_line(alloc, &declared, line) {
        Ok(m) => m,
        Err(halt) => return Err(halt),
    };
    if let Err(halt) = counted(words_with(&declared, plan, area)) {
        return Err(halt);
    }
    let own = declared.words + area;
    with_array(declared, Some(spread), sizes, own)
}
