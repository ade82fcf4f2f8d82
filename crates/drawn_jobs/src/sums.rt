//! The sum of a local array.
ghost use Rattle.std.specs.Prelude.{◌≡◌, ◌<◌, ◌≤◌, ◌+◌, ◌*◌, ◌^◌, ◌+ℤ◌, ℕ, length, take, unsigned_abs};
ghost use Rattle.fold_ops.specs.Fold.{total};
ghost use Rattle.pack_words.specs.LocalCells.{column_of};

use pack_words::LocalArray;

// A word more.
#[inline]
#[tactic(auto, using(crate::proofs::SumLaws::fits_more, crate::proofs::SumLaws::small_more))]
fn added(sum: i64, word: i32) -> i64
    requires { unsigned_abs sum ≤ 2 ^ 24 * 2 ^ 31 }
    ensures sum { result ≡ (sum +ℤ word) }
    ensures small { (n : ℕ) → unsigned_abs sum ≤ n * 2 ^ 31 → unsigned_abs result ≤ (n + 1) * 2 ^ 31 }
{
    sum + i64::from(word)
}

// Two sums together.
#[tactic(auto, using(crate::proofs::SumLaws::both_fit, crate::proofs::SumLaws::both_small))]
pub(crate) fn plus(sum: i64, more: i64) -> i64
    requires sum { unsigned_abs sum ≤ 2 ^ 62 }
    requires more { unsigned_abs more ≤ 2 ^ 57 }
    ensures sum { result ≡ (sum +ℤ more) }
    ensures small { unsigned_abs result ≤ unsigned_abs sum + unsigned_abs more }
{
    sum + more
}

// The sum of the words of a column.
#[tactic(auto, using(crate::proofs::SumLaws::sum_more, crate::proofs::SumLaws::small_by))]
fn sum_words(words: &[i32]) -> i64
    requires few { length words.now ≤ 2 ^ 24 }
    ensures sum { result ≡ total words.now }
    ensures small { unsigned_abs result ≤ length words.now * 2 ^ 31 }
{
    let mut sum = 0;
    for word in words {
        sum = added(sum, *word);
    }
    sum
}

// The sum of column `j`.
fn sum_column(cells: &LocalArray, j: u32) -> i64
    requires column { j < cells.now.cols }
    requires lead { cells.now.lld ≤ 2 ^ 24 }
    ensures sum { result ≡ total (column_of cells.now j) }
    ensures small { unsigned_abs result ≤ cells.now.lld * 2 ^ 31 }
{
    sum_words(cells.column(j))
}

// The sum of the first columns, and of column `j` after them.
#[tactic(auto, using(crate::proofs::SumLaws::column_more, crate::proofs::SumLaws::column_few, crate::proofs::SumLaws::next_column))]
fn add_column(cells: &LocalArray, j: u32, before: i64) -> i64
    requires column { j < cells.now.cols }
    requires lead { cells.now.lld ≤ 2 ^ 24 }
    requires area { cells.now.lld * cells.now.cols ≤ 2 ^ 26 }
    requires before { before ≡ total (take (j * cells.now.lld) cells.now.words) }
    requires small { unsigned_abs before ≤ j * cells.now.lld * 2 ^ 31 }
    ensures sum { result ≡ total (take ((j + 1) * cells.now.lld) cells.now.words) }
    ensures small { unsigned_abs result ≤ (j + 1) * cells.now.lld * 2 ^ 31 }
{
    plus(before, sum_column(cells, j))
}

/// The sum of the words of an array.
#[tactic(auto, using(crate::proofs::SumLaws::all_columns, crate::proofs::SumLaws::array_small))]
pub(crate) fn sum_of(cells: &LocalArray) -> i64
    ensures sum { result ≡ total cells.now.words }
    ensures small { unsigned_abs result ≤ 2 ^ 57 }
{
    let mut sum = 0;
    for j in 0..cells.cols() {
        sum = add_column(cells, j, sum);
    }
    sum
}
