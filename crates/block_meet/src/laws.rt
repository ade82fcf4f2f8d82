//! Laws of runs, for those that build on them.

ghost use Rattle.std.specs.Prelude.{◌≡◌, ◌+◌, ◌*◌, ◌<◌, ◌≤◌, ◌↔◌, ℕ, IsTrue, List, count_by};
ghost use Rattle.index_tools.specs.Spread.{owner, local};
ghost use Rattle.block_meet.specs.declared.axis.Axis.{Axis};
ghost use Rattle.block_meet.specs.declared.axis.Run.{Run};
ghost use Rattle.block_meet.specs.Runs.{IsAxis, IsRun, AreRuns, holds, spread_of};
ghost use Rattle.pack_words.specs.declared.cut.Cut.{Cut};
ghost use Rattle.block_meet.specs.declared.side.Meet.{Meet};
ghost use Rattle.block_meet.specs.Meets.{HasSelected, touches, rectangles, meets_of_all_pairs};

/// Each index is in exactly one of the runs.
pub fn each_index_in_one_run()
    ensures { (n : ℕ) (a b : Axis) (rs : List Run) → AreRuns n a b rs → (i : ℕ) → i < n → count_by (holds i) rs ≡ 1 }
{}

/// Inside a run the owners stay, and the local indices go up by one.
pub fn inside_a_run()
    ensures { (n : ℕ) (a b : Axis) (r : Run) → IsRun n a b r → (u : ℕ) → u < r.len →
        (owner (spread_of a) (a.first + (r.start + u)) ≡ r.pa)
        × (owner (spread_of b) (b.first + (r.start + u)) ≡ r.pb)
        × (local (spread_of a) (a.first + (r.start + u)) ≡ r.la + u)
        × (local (spread_of b) (b.first + (r.start + u)) ≡ r.lb + u) }
{}

/// After `t` whole turns of the blocks of an axis the owner is the same, and the local index is `t` blocks further.
pub fn after_whole_turns()
    ensures { (a : Axis) (i t : ℕ) → 1 ≤ a.nb → a.src < a.procs → let p = t * (a.nb * a.procs) in
        (owner (spread_of a) (a.first + (i + p)) ≡ owner (spread_of a) (a.first + i))
        × (local (spread_of a) (a.first + (i + p)) ≡ local (spread_of a) (a.first + i) + t * a.nb) }
{}

/// Each axis has its runs, and they are determined.
pub fn runs_of_an_axis()
    ensures some { (n : ℕ) (a b : Axis) → IsAxis n a → IsAxis n b → (rs : List Run) × AreRuns n a b rs }
    ensures only { (n : ℕ) (a b : Axis) (rs qs : List Run) → AreRuns n a b rs → AreRuns n a b qs → rs ≡ qs }
{}

/// A rectangle has a selected element just where the corner that the shape favours is selected.
pub fn corner_tells()
    ensures { (cut : Cut) (m : Meet) → 0 < m.rows → 0 < m.cols → IsTrue (touches cut m) ↔ HasSelected cut m }
{}

/// The rectangles of all row runs and all column runs that have a selected element are the meets of all pairs.
pub fn meets_add_up()
    ensures { (cut : Cut) (ra rb ca cb : Axis) (rs cs : List Run) → IsAxis cut.m ra → IsAxis cut.m rb →
        IsAxis cut.n ca → IsAxis cut.n cb → AreRuns cut.m ra rb rs → AreRuns cut.n ca cb cs →
        count_by (touches cut) (rectangles rs cs) ≡ meets_of_all_pairs cut ra rb ca cb rs cs }
{}
