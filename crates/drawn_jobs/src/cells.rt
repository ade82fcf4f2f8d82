//! Local arrays that are made of words.
ghost use Rattle.std.specs.Prelude.{◌≡◌, ◌≤◌, ◌*◌, ◌^◌, length, IfOk, FitsSigned};
ghost use Rattle.std.specs.List.{AllByRecursion};
ghost use Rattle.std.specs.Int.{w32};

use pack_words::LocalArray;
use std::alloc::{AllocError, Global};

// Says that each word is of 32 bits. The loop does nothing, and none is left once compiled.
fn each_fits(words: &[i32])
    ensures { AllByRecursion (FitsSigned w32) words.now }
{
    for word in words {
        let _word = *word;
    }
}

/// The array of these words, by columns.
pub(crate) fn array_from(lld: u32, cols: u32, words: Vec<i32>) -> LocalArray
    requires some_lead { 1 ≤ lld }
    requires lead { lld ≤ 2 ^ 24 }
    requires area { lld * cols ≤ 2 ^ 26 }
    requires whole { length words.items ≡ lld * cols }
    ensures lead { result.lld ≡ lld }
    ensures columns { result.cols ≡ cols }
    ensures words { result.words ≡ words.items }
{
    each_fits(&words);
    LocalArray::from_words(lld, cols, words)
}

/// The same array in memory of its own.
#[tactic(auto, using(crate::proofs::ListLaws::column_more, crate::proofs::ListLaws::all_columns))]
pub(crate) fn copy_of(alloc: Global, cells: &LocalArray) -> Result<LocalArray, AllocError>
    ensures { IfOk result (λ a. a ≡ cells.now) }
{
    let count = u64::from(cells.lld()) * u64::from(cells.cols());
    let mut words = Vec::with_capacity(alloc, count as usize)?;
    for j in 0..cells.cols() {
        words.extend_from_slice(cells.column(j))?;
    }
    Ok(LocalArray::from_words(cells.lld(), cells.cols(), words))
}
