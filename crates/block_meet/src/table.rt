//! A table of the greatest runs of an axis that keeps one period of them.

ghost use Rattle.std.specs.Prelude.{◌≡◌, ◌+◌, ◌*◌, ◌/◌, ◌<◌, ◌≤◌, ℕ, IfOk, List, length, min, count_by, nat_le, nat_lt, slice_get};
ghost use Rattle.std.specs.List.Sorted.{IsPartitionedBy};
ghost use Rattle.index_tools.specs.Multiples.{IsLeastCommonMultiple};
ghost use Rattle.block_meet.specs.Runs.{IsAxis, IsRun, AreRuns};
ghost use Rattle.block_meet.specs.declared.axis.Run.{Run};
ghost use Rattle.block_meet.specs.Numbers.{run_number, run_count, IsFirstOf};
ghost use Rattle.block_meet.specs.Table.{AreStarts};

use crate::rows::run_at;
use crate::{Axis, Run};
use index_tools::ilcm;
use std::alloc::{AllocError, Global};
use std::marker::Model;

/// The greatest runs of the first `n` indices, one by one. Kept are the first indices of the runs 1, 2 and so on that
/// begin within the first period; every further one is such a one, whole periods later.
#[derive(Debug, Drop)]
pub struct RunTable {
    n: u32,
    a: Axis,
    b: Axis,
    reach: u32,
    starts: Vec<u32>,
}

impl Model for RunTable {
    ghost use Rattle.block_meet.specs.Table.{Table, IsTable};

    ghost Value = { Table };

    ghost view = { λ t. record { n = t.n; a = t.a; b = t.b; kept = t.starts.items } };

    ghost invariant = { λ t. IsTable t.n t.a t.b t.reach t.starts.items };
}

impl RunTable {
    /// A table of the runs of the first `n` indices.
    pub fn new(alloc: Global, n: u32, a: Axis, b: Axis) -> Result<RunTable, AllocError>
        requires first { IsAxis n a }
        requires second { IsAxis n b }
        ensures { IfOk result (λ t. (t.n ≡ n) × (t.a ≡ a) × (t.b ≡ b)) }
    {
        let last = n.saturating_sub(1);
        let period = ilcm(a.nb, b.nb);
        let reach = u64::from(last).min(period) as u32;
        let starts = starts_within(alloc, reach, a, b)?;
        Ok(RunTable {
            n,
            a,
            b,
            reach,
            starts,
        })
    }

    /// How many runs there are. A search in what is kept.
    pub fn len(&self) -> u32
        ensures count { result ≡ run_count self.now.a self.now.b self.now.n }
        ensures list { (rs : List Run) → AreRuns self.now.n self.now.a self.now.b rs → length rs ≡ result }
    {
        if self.n == 0 {
            0
        } else {
            self.number(self.n - 1) + 1
        }
    }

    /// The `k`-th run, counted from 0, of the list that `meet_rows` gives. Takes no memory, and as long whatever `k`.
    pub fn run(&self, k: u32) -> Run
        requires { k < run_count self.now.a self.now.b self.now.n }
        ensures run { IsRun self.now.n self.now.a self.now.b result }
        ensures number { run_number self.now.a self.now.b result.start ≡ k }
        ensures list { (rs : List Run) → AreRuns self.now.n self.now.a self.now.b rs →
            slice_get rs k ≡ Some result }
    {
        run_at(self.n, self.a, self.b, self.first_of(k))
    }

    // The first index of the k-th run.
    fn first_of(&self, k: u32) -> u32
        requires { k < run_count self.now.a self.now.b self.now.n }
        ensures first { IsFirstOf self.now.a self.now.b k result }
        ensures inside { result < self.now.n }
    {
        if k == 0 {
            return 0;
        }
        let held = self.starts.len() as u32;
        let start = self.starts[((k - 1) % held) as usize];
        start + (k - 1) / held * self.reach
    }

    /// The number of the run that the index lies in. Takes no memory, and a search in the runs that are kept.
    pub fn number(&self, index: u32) -> u32
        requires { index < self.now.n }
        ensures number { result ≡ run_number self.now.a self.now.b index }
        ensures below { result < run_count self.now.a self.now.b self.now.n }
    {
        if index <= self.reach {
            up_to(&self.starts, index) as u32
        } else {
            index / self.reach * self.starts.len() as u32
                + up_to(&self.starts, index % self.reach) as u32
        }
    }

    /// How many runs end after the index.
    pub fn ending_after(&self, index: u32) -> u32
        ensures { (rs : List Run) → AreRuns self.now.n self.now.a self.now.b rs →
            result ≡ count_by (λ r. nat_lt index (r.start + r.len)) rs }
    {
        if index < self.n {
            self.len() - self.number(index)
        } else {
            0
        }
    }

    /// How many runs begin before the index.
    pub fn starting_before(&self, index: u32) -> u32
        ensures { (rs : List Run) → AreRuns self.now.n self.now.a self.now.b rs →
            result ≡ count_by (λ r. nat_lt r.start index) rs }
    {
        let end = index.min(self.n);
        if end == 0 {
            0
        } else {
            self.number(end - 1) + 1
        }
    }

    /// How many runs are kept.
    pub fn held(&self) -> u32
        ensures kept { result ≡ length self.now.kept }
        ensures bounded { (period : ℕ) →
            IsLeastCommonMultiple (self.now.a.nb * self.now.a.procs) (self.now.b.nb * self.now.b.procs) period →
            let most = min self.now.n (2 * period) in
            result ≤ most / self.now.a.nb + most / self.now.b.nb + 3 }
    {
        self.starts.len() as u32
    }
}

// The first indices of the runs 1, 2 and so on that begin at `last` or before.
fn starts_within(alloc: Global, last: u32, a: Axis, b: Axis) -> Result<Vec<u32>, AllocError>
    requires first { IsAxis last a }
    requires second { IsAxis last b }
    ensures { IfOk result (λ starts. AreStarts a b last starts.items) }
{
    let mut starts = Vec::new(alloc);
    let mut start = a.left(0).min(b.left(0));
    while start <= last {
        starts.push(start)?;
        start += a.left(start).min(b.left(start));
    }
    Ok(starts)
}

// How many of the rising numbers are at most `index`.
pub(crate) fn up_to(starts: &[u32], index: u32) -> usize
    requires { IsPartitionedBy (λ s. nat_le s index) starts.now }
    ensures { result ≡ count_by (λ s. nat_le s index) starts.now }
{
    starts.partition_point(|s| *s <= index)
}
