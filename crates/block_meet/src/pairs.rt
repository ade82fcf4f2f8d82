//! The runs of an axis, dealt out to the pairs of processes that they lie on.

ghost use Rattle.std.specs.Prelude.{◌≡◌, ◌+◌, ◌-◌, ◌*◌, ◌<◌, ◌≤◌, ℕ, IfOk, OnOk, List, [], ◌∷◌, ◌++◌, filter, length, get_or, slice_get, slice_set, Some, if◌then◌else◌};
ghost use Rattle.block_meet.specs.declared.axis.Run.{Run};
ghost use Rattle.block_meet.specs.Runs.{IsAxis, AreRuns};
ghost use Rattle.block_meet.specs.Steps.{steps};
ghost use Rattle.block_meet.specs.Fits.{no_run, AreShort};
ghost use Rattle.block_meet.specs.Pairs.{lies_on, is_on, begins_on, begun, lists_of, IsPutOut};

use crate::rows::run_at;
use crate::table::up_to;
use crate::{Axis, Run};
use index_tools::ilcm;
use std::alloc::{AllocError, Global};
use std::marker::Model;

/// The greatest runs of the first `n` indices by the pair of processes that they lie on. Kept are the first indices of
/// the runs that begin within the first turn of the blocks, a list for each pair; every further run of a pair is such
/// a one, whole turns later.
#[derive(Debug, Drop)]
pub struct PairRuns {
    n: u32,
    a: Axis,
    b: Axis,
    reach: u32,
    starts: Vec<Vec<u32>>,
}

impl Model for PairRuns {
    ghost use Rattle.block_meet.specs.Pairs.{Dealt, IsDealt, lists_of};

    ghost Value = { Dealt };

    ghost view = { λ t. record { n = t.n; a = t.a; b = t.b } };

    ghost invariant = { λ t. IsDealt t.n t.a t.b t.reach (lists_of t.starts) };
}

impl PairRuns {
    /// The runs of the first `n` indices, dealt out in one pass over a turn at most.
    pub fn new(alloc: Global, n: u32, a: Axis, b: Axis) -> Result<PairRuns, AllocError>
        requires first { IsAxis n a }
        requires second { IsAxis n b }
        ensures { IfOk result (λ t. t ≡ record { n = n; a = a; b = b }) }
    {
        let last = n.saturating_sub(1);
        let turn = ilcm(a.nb * a.procs, b.nb * b.procs);
        let reach = u64::from(last).min(turn) as u32;
        let starts = starts_by_pair(alloc, n, a, b, reach)?;
        Ok(PairRuns {
            n,
            a,
            b,
            reach,
            starts,
        })
    }

    /// The runs that lie on process `p` in A and on process `q` in B, in increasing order.
    pub fn of(&self, alloc: Global, p: u32, q: u32) -> Result<Vec<Run>, AllocError>
        requires in_a { p < self.now.a.procs }
        requires in_b { q < self.now.b.procs }
        ensures list { IfOk result (λ runs. (rs : List Run) → AreRuns self.now.n self.now.a self.now.b rs →
            runs.items ≡ filter (lies_on p q) rs) }
        ensures short { IfOk result (λ runs. AreShort self.now.n runs.items) }
    {
        let _indices = self.n;
        let count = self.len(p, q);
        let mut runs = Vec::with_capacity(alloc, count as usize)?;
        for k in 0..count {
            runs.push(self.run(p, q, k))?;
        }
        Ok(runs)
    }

    /// How many runs lie on process `p` in A and on process `q` in B. A search in what is kept.
    pub fn len(&self, p: u32, q: u32) -> u32
        requires in_a { p < self.now.a.procs }
        requires in_b { q < self.now.b.procs }
        ensures count { result ≡ begun self.now.a self.now.b p q self.now.n }
        ensures list { (rs : List Run) → AreRuns self.now.n self.now.a self.now.b rs →
            length (filter (lies_on p q) rs) ≡ result }
    {
        if self.n == 0 {
            0
        } else {
            self.first_runs(p, q) + self.later_runs(p, q)
        }
    }

    /// The `k`-th of these runs, counted from 0. Takes no memory, and as long whatever `k`.
    pub fn run(&self, p: u32, q: u32, k: u32) -> Run
        requires in_a { p < self.now.a.procs }
        requires in_b { q < self.now.b.procs }
        requires below { k < begun self.now.a self.now.b p q self.now.n }
        ensures list { (rs : List Run) → AreRuns self.now.n self.now.a self.now.b rs →
            slice_get (filter (lies_on p q) rs) k ≡ Some result }
    {
        run_at(self.n, self.a, self.b, self.first_of(p, q, k))
    }

    // The first index of the k-th run of a pair.
    fn first_of(&self, p: u32, q: u32, k: u32) -> u32
        requires in_a { p < self.now.a.procs }
        requires in_b { q < self.now.b.procs }
        requires below { k < begun self.now.a self.now.b p q self.now.n }
        ensures first { (rs : List Run) → AreRuns self.now.n self.now.a self.now.b rs →
            (get_or (filter (lies_on p q) rs) k no_run).start ≡ result }
        ensures inside { result < self.now.n }
    {
        let before = self.first_runs(p, q);
        if k < before {
            return 0;
        }
        let starts = &self.starts[(p * self.b.procs + q) as usize];
        let held = starts.len() as u32;
        let start = starts[((k - before) % held) as usize];
        start + (k - before) / held * self.reach
    }

    // 1 where the first run lies on the pair, else 0.
    fn first_runs(&self, p: u32, q: u32) -> u32
        requires { 0 < self.now.n }
        ensures { result ≡ (if is_on self.now.a self.now.b p q 0 then 1 else 0) }
    {
        if self.a.owner(0) == p && self.b.owner(0) == q {
            1
        } else {
            0
        }
    }

    // How many runs after the first lie on the pair.
    fn later_runs(&self, p: u32, q: u32) -> u32
        requires in_a { p < self.now.a.procs }
        requires in_b { q < self.now.b.procs }
        requires some { 0 < self.now.n }
        ensures count { result ≡ steps (begins_on self.now.a self.now.b p q) (self.now.n - 1) }
        ensures few { result < self.now.n }
    {
        let starts = &self.starts[(p * self.b.procs + q) as usize];
        let last = self.n - 1;
        if last <= self.reach {
            up_to(starts, last) as u32
        } else {
            last / self.reach * starts.len() as u32 + up_to(starts, last % self.reach) as u32
        }
    }
}

// The first indices of the runs that begin from index 1 to `reach`, a list for each pair.
fn starts_by_pair(
    alloc: Global,
    n: u32,
    a: Axis,
    b: Axis,
    reach: u32,
) -> Result<Vec<Vec<u32>>, AllocError>
    requires first { IsAxis n a }
    requires second { IsAxis n b }
    requires within { reach ≤ n - 1 }
    ensures { IfOk result (λ starts. IsPutOut a b reach (lists_of starts)) }
{
    let mut starts = empty_lists(alloc, a.procs * b.procs)?;
    let mut start = a.left(0).min(b.left(0));
    while start <= reach {
        let pair = a.owner(start) * b.procs + b.owner(start);
        put(&mut starts, pair as usize, start)?;
        start += a.left(start).min(b.left(start));
    }
    Ok(starts)
}

// So many empty lists.
fn empty_lists(alloc: Global, count: u32) -> Result<Vec<Vec<u32>>, AllocError>
    ensures count { IfOk result (λ lists. length (lists_of lists) ≡ count) }
    ensures empty { IfOk result (λ lists. (k : ℕ) → get_or (lists_of lists) k [] ≡ []) }
{
    let mut lists = Vec::new(alloc);
    for _ in 0..count {
        lists.push(Vec::new(alloc))?;
    }
    Ok(lists)
}

// Puts an index at the end of a list.
fn put(lists: &mut Vec<Vec<u32>>, k: usize, index: u32) -> Result<(), AllocError>
    requires { k < length (lists_of lists.old) }
    ensures { OnOk result (lists_of lists.new ≡
        slice_set (lists_of lists.old) k (get_or (lists_of lists.old) k [] ++ index ∷ [])) }
{
    lists[k].push(index)?;
    Ok(())
}
