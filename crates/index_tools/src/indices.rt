//! Owners, counts, and local and global indices of one dimension that is spread over processes in blocks.

ghost use Rattle.std.specs.Prelude.{ℕ, ◌≡◌, ◌+◌, ◌-◌, ◌^◌, ◌<◌, ◌≤◌};
ghost use Rattle.index_tools.specs.Spread.{spread, owner, below, local, IsIndexAt};

/// How many of the indices below `n` belong to the process `iproc`, where blocks of `nb` indices are dealt out in
/// turn to `nprocs` processes, the first block to `isrcproc`. ScaLAPACK TOOLS, `NUMROC`.
pub fn numroc(n: u32, nb: u32, iproc: u32, isrcproc: u32, nprocs: u32) -> u32
    requires size { n ≤ 2 ^ 24 }
    requires block { 1 ≤ nb }
    requires block_fits { nb ≤ 2 ^ 24 }
    requires processes { nprocs ≤ 64 }
    requires process { iproc < nprocs }
    requires source { isrcproc < nprocs }
    ensures count { result ≡ below (spread nb isrcproc nprocs) iproc n }
    ensures within { result ≤ n }
{
    let distance = (nprocs + iproc - isrcproc) % nprocs;
    let blocks = n / nb;
    let whole = blocks / nprocs * nb;
    let last = blocks % nprocs;
    if distance < last {
        whole + nb
    } else if distance == last {
        whole + n % nb
    } else {
        whole
    }
}

/// The process that the global index `indxglob`, counted from 1, belongs to. ScaLAPACK TOOLS, `INDXG2P`; the second
/// process number is not used, as there.
pub fn indxg2p(indxglob: u32, nb: u32, _iproc: u32, isrcproc: u32, nprocs: u32) -> u32
    requires index { 1 ≤ indxglob }
    requires index_fits { indxglob ≤ 2 ^ 24 }
    requires block { 1 ≤ nb }
    requires block_fits { nb ≤ 2 ^ 24 }
    requires processes { nprocs ≤ 64 }
    requires source { isrcproc < nprocs }
    ensures owner { result ≡ owner (spread nb isrcproc nprocs) (indxglob - 1) }
    ensures process { result < nprocs }
{
    (isrcproc + (indxglob - 1) / nb) % nprocs
}

/// The local index of the global index `indxglob` on the process that it belongs to, both counted from 1. ScaLAPACK
/// TOOLS, `INDXG2L`; the second process number is not used, as there.
pub fn indxg2l(indxglob: u32, nb: u32, _iproc: u32, isrcproc: u32, nprocs: u32) -> u32
    requires index { 1 ≤ indxglob }
    requires index_fits { indxglob ≤ 2 ^ 24 }
    requires block { 1 ≤ nb }
    requires block_fits { nb ≤ 2 ^ 24 }
    requires processes { nprocs ≤ 64 }
    requires source { isrcproc < nprocs }
    ensures local { result ≡ local (spread nb isrcproc nprocs) (indxglob - 1) + 1 }
    ensures within { result ≤ indxglob }
{
    let index = indxglob - 1;
    nb * (index / (nb * nprocs)) + index % nb + 1
}

/// The global index, counted from 1, of the local index `indxloc` of the process `iproc`, counted from 1: one more
/// than the index that `iproc` owns with exactly `indxloc - 1` of its indices below. At most 2^24 * 64. ScaLAPACK
/// TOOLS, `INDXL2G`.
pub fn indxl2g(indxloc: u32, nb: u32, iproc: u32, isrcproc: u32, nprocs: u32) -> u64
    requires index { 1 ≤ indxloc }
    requires index_fits { indxloc ≤ 2 ^ 24 }
    requires block { 1 ≤ nb }
    requires block_fits { nb ≤ 2 ^ 24 }
    requires processes { nprocs ≤ 64 }
    requires process { iproc < nprocs }
    requires source { isrcproc < nprocs }
    ensures from_one { 1 ≤ result }
    ensures index { IsIndexAt (spread nb isrcproc nprocs) iproc (indxloc - 1) (result - 1) }

    // There is one such index.
    ensures only { (g : ℕ) → IsIndexAt (spread nb isrcproc nprocs) iproc (indxloc - 1) g →
        result ≡ g + 1 }
{
    let local = indxloc - 1;
    let distance = (nprocs + iproc - isrcproc) % nprocs;
    let block = u64::from(local / nb) * u64::from(nprocs) + u64::from(distance);
    block * u64::from(nb) + u64::from(local % nb) + 1
}

/// One more than the number of indices of the process `myproc` below the global index `gindx`, which is counted from
/// 1, and the process that `gindx` belongs to. On that process the first number is the local index, counted from 1;
/// on another it is that of its next index from there on. ScaLAPACK TOOLS, `INFOG1L`; `INFOG2L` is this call for the
/// rows and for the columns.
pub fn infog1l(gindx: u32, nb: u32, nprocs: u32, myproc: u32, isrcproc: u32) -> (u32, u32)
    requires index { 1 ≤ gindx }
    requires index_fits { gindx ≤ 2 ^ 24 }
    requires block { 1 ≤ nb }
    requires block_fits { nb ≤ 2 ^ 24 }
    requires processes { nprocs ≤ 64 }
    requires process { myproc < nprocs }
    requires source { isrcproc < nprocs }
    ensures count { result.0 ≡ below (spread nb isrcproc nprocs) myproc (gindx - 1) + 1 }
    ensures owner { result.1 ≡ owner (spread nb isrcproc nprocs) (gindx - 1) }
{
    let below = numroc(gindx - 1, nb, myproc, isrcproc, nprocs);
    (below + 1, indxg2p(gindx, nb, myproc, isrcproc, nprocs))
}
