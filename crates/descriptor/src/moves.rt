//! The arguments of a move from one spread matrix to another, and their check.

ghost use Rattle.std.specs.Prelude.{◌≡◌, ◌+◌, ◌≤◌, ◌==◌, ◌||◌, pos, None, Some, Option, not, true, false, IfOk, IfErr, OnOk, OnErr};
ghost use Rattle.std.specs.List.{list_any};
ghost use Rattle.proc_grid.specs.Held.{context_at};
ghost use Rattle.descriptor.specs.Bounds.{lacks_grid};
ghost use Rattle.descriptor.specs.InfoOf.{info_of};
ghost use Rattle.descriptor.specs.Entries.{is_bad_uplo, is_bad_diag, extent_entries, common_entries, matrix_entries, move_entries, gemr2d_entries, trmr2d_entries};

use crate::info::number;
use crate::matrix::{Extents, check_extents, check_matrix};
use crate::{Info, Spread};
use proc_grid::Contexts;

/// The arguments of a move of the M by N submatrix of array `a` from (IA, JA) to that of array `b` from (IB, JB), and
/// a context that has all processes of both grids. ScaLAPACK REDIST, `PIGEMR2D`.
#[derive(Debug, Drop)]
pub struct MrArgs {
    pub m: i64,
    pub n: i64,
    pub a: u32,
    pub ia: i64,
    pub ja: i64,
    pub desca: Spread,
    pub b: u32,
    pub ib: i64,
    pub jb: i64,
    pub descb: Spread,
    pub ictxt: i64,
}

/// What a move took: the number of rectangles that lie in one block of each matrix, the messages, and the copies.
#[derive(Clone, Copy, Debug, PartialEq, Eq)]
pub struct Moved {
    pub meets: u64,
    pub messages: u32,
    pub copies: u32,
}

/// Why a move is refused, in the order of the tests: a bad argument, one array as source and target, more operations
/// than a plan has, and out of memory.
#[derive(Clone, Copy, Debug, PartialEq, Eq)]
pub enum MrErr {
    Info(Info),
    SameArray,
    TooManyOps,
    NoMemory,
}

/// Checks the arguments of a move, whose places are M 1, N 2, A 3, IA 4, JA 5, DESCA 6, B 7, IB 8, JB 9, DESCB 10 and
/// ICTXT 11. They are looked at in this order: M, N, the entries of DESCA, IA, JA, the entries of DESCB, IB, JB, ICTXT;
/// the first bad one is named. M and N are bad outside 0 to 2^24, ICTXT where it isn't a context or lacks a process of
/// one of the two grids. No memory is taken. ScaLAPACK REDIST, `PIGEMR2D`; the check is this project's own.
pub fn info_gemr2d(contexts: &Contexts, args: &MrArgs) -> Result<(), Info>
    ensures passes { OnOk result (info_of (gemr2d_entries contexts.now args.now) ≡ None) }
    ensures refuses { let entries = gemr2d_entries contexts.now args.now in
        IfErr result (λ info. info_of entries ≡ Some info) }
{
    check_move(contexts, args, 0)
}

/// Checks the arguments of a move of a trapezoid: UPLO, which is U or L, DIAG, which is N or U, both in either case,
/// and then those of `info_gemr2d`, whose places are two higher. No memory is taken. ScaLAPACK REDIST, `PITRMR2D`; the
/// check is this project's own.
#[tactic(auto, unfolding(crate::specs::Entries::is_bad_uplo, crate::specs::Entries::is_bad_diag))]
pub fn info_trmr2d(contexts: &Contexts, uplo: char, diag: char, args: &MrArgs) -> Result<(), Info>
    ensures passes { OnOk result (info_of (trmr2d_entries contexts.now uplo diag args.now) ≡ None) }
    ensures refuses { let entries = trmr2d_entries contexts.now uplo diag args.now in
        IfErr result (λ info. info_of entries ≡ Some info) }
{
    if !matches!(uplo, 'U' | 'u' | 'L' | 'l') {
        return Err(number(1));
    }
    if !matches!(diag, 'N' | 'n' | 'U' | 'u') {
        return Err(number(2));
    }
    check_move(contexts, args, 2)
}

// The arguments of a move, where `shift` more stand before them.
#[tactic(auto, using(crate::proofs::InfoLemmas::info_of_front, crate::proofs::InfoLemmas::info_of_rest))]
fn check_move(contexts: &Contexts, args: &MrArgs, shift: u32) -> Result<(), Info>
    requires { shift ≤ 2 }
    ensures passes { OnOk result (info_of (move_entries contexts.now args.now shift) ≡ None) }
    ensures refuses { let entries = move_entries contexts.now args.now shift in
        IfErr result (λ info. info_of entries ≡ Some info) }
{
    let extents = extents_of(args, shift)?;
    check_source(contexts, extents, args, 6 + shift)?;
    check_target(contexts, extents, args, 10 + shift)?;
    check_context(contexts, args, 11 + shift)
}

// How many rows and columns are moved.
fn extents_of(args: &MrArgs, shift: u32) -> Result<Extents, Info>
    requires { shift ≤ 2 }
    ensures passes { let entries = extent_entries args.now.m (1 + shift) args.now.n (2 + shift) in
        OnOk result (info_of entries ≡ None) }
    ensures rows { IfOk result (λ extents. args.now.m ≡ pos extents.rows) }
    ensures columns { IfOk result (λ extents. args.now.n ≡ pos extents.columns) }
    ensures refuses { let entries = extent_entries args.now.m (1 + shift) args.now.n (2 + shift) in
        IfErr result (λ info. info_of entries ≡ Some info) }
{
    check_extents(args.m, 1 + shift, args.n, 2 + shift)
}

// The submatrix that is moved.
fn check_source(
    contexts: &Contexts,
    extents: Extents,
    args: &MrArgs,
    place: u32,
) -> Result<(), Info>
    requires after { 3 ≤ place }
    requires place { place ≤ 15 }
    ensures passes { let entries = matrix_entries contexts.now (pos extents.rows) (pos extents.columns)
        args.now.ia args.now.ja args.now.desca place in
        OnOk result (info_of entries ≡ None) }
    ensures refuses { let entries = matrix_entries contexts.now (pos extents.rows) (pos extents.columns)
        args.now.ia args.now.ja args.now.desca place in
        IfErr result (λ info. info_of entries ≡ Some info) }
{
    check_matrix(contexts, extents, args.ia, args.ja, &args.desca, place)
}

// The submatrix that it is moved to.
fn check_target(
    contexts: &Contexts,
    extents: Extents,
    args: &MrArgs,
    place: u32,
) -> Result<(), Info>
    requires after { 3 ≤ place }
    requires place { place ≤ 15 }
    ensures passes { let entries = matrix_entries contexts.now (pos extents.rows) (pos extents.columns)
        args.now.ib args.now.jb args.now.descb place in
        OnOk result (info_of entries ≡ None) }
    ensures refuses { let entries = matrix_entries contexts.now (pos extents.rows) (pos extents.columns)
        args.now.ib args.now.jb args.now.descb place in
        IfErr result (λ info. info_of entries ≡ Some info) }
{
    check_matrix(contexts, extents, args.ib, args.jb, &args.descb, place)
}

// The context that has all processes of both grids.
fn check_context(contexts: &Contexts, args: &MrArgs, place: u32) -> Result<(), Info>
    requires { place ≤ 2000 }
    ensures passes { let entries = common_entries contexts.now args.now.ictxt args.now.desca.desc.ctxt
        args.now.descb.desc.ctxt place in
        OnOk result (info_of entries ≡ None) }
    ensures refuses { let entries = common_entries contexts.now args.now.ictxt args.now.desca.desc.ctxt
        args.now.descb.desc.ctxt place in
        IfErr result (λ info. info_of entries ≡ Some info) }
{
    check_common(
        contexts,
        args.ictxt,
        args.desca.desc.ctxt,
        args.descb.desc.ctxt,
        place,
    )
}

// The context that has all processes of two grids.
#[tactic(auto, unfolding(crate::specs::Entries::common_entries))]
fn check_common(
    contexts: &Contexts,
    ictxt: i64,
    first: i64,
    second: i64,
    place: u32,
) -> Result<(), Info>
    requires { place ≤ 2000 }
    ensures passes { let entries = common_entries contexts.now ictxt first second place in
        OnOk result (info_of entries ≡ None) }
    ensures refuses { let entries = common_entries contexts.now ictxt first second place in
        IfErr result (λ info. info_of entries ≡ Some info) }
{
    if lacks(contexts, ictxt, first) || lacks(contexts, ictxt, second) {
        return Err(number(place));
    }
    Ok(())
}

// No common context, or one that hasn't each rank of another grid.
#[tactic(auto, unfolding(crate::specs::Bounds::lacks_grid))]
fn lacks(contexts: &Contexts, ictxt: i64, other: i64) -> bool
    ensures { lacks_grid (context_at contexts.now ictxt) (context_at contexts.now other) ≡ result }
{
    let Some(common) = contexts.get(ictxt) else {
        return true;
    };
    match contexts.get(other) {
        Some(grid) => lacks_rank(common.ranks(), grid.ranks()),
        None => false,
    }
}

// Whether a rank of the second list isn't in the first.
fn lacks_rank(held: &[u32], wanted: &[u32]) -> bool
    ensures { result ≡ list_any (λ rank. not (list_any (λ r. r == rank) held.now)) wanted.now }
{
    wanted.iter().any(|rank| !held.contains(rank))
}
