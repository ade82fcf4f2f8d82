//! The part of a matrix that one process holds.

ghost use Rattle.std.specs.Prelude.{◌≡◌, ◌≢◌, ◌⊎◌, ◌<◌, ◌≤◌, ◌+◌, ◌*◌, ◌^◌, ℕ, length, FitsSigned, IfOk, IfSome, IfNone, MatchResult};
ghost use Rattle.std.specs.List.{AllByRecursion};
ghost use Rattle.std.specs.Int.{w32};
ghost use Rattle.pack_words.specs.LocalCells.{IsLocalCells, zeros, word_at, with_word, column_of, part_of, with_part};
ghost use Rattle.pack_words.specs.ArrayRefusal.{array_refusal};

use crate::ArrayErr;
use crate::parts::{each_fits, put_part};
use std::alloc::Global;
use std::marker::Model;

// the longest column, and the most words of an array
const LONGEST: u32 = 1 << 24;

const MOST: u64 = 1 << 26;

/// The local array of one process: words by columns, each column `lld` words long. A process without a part of the
/// matrix has one with `lld` 1 and no columns. ScaLAPACK Users' Guide, "Local Storage Scheme and Block-Cyclic Mapping".
#[derive(Debug, Drop)]
pub struct LocalArray {
    lld: u32,
    cols: u32,
    words: Vec<i32>,
}

impl Model for LocalArray {
    ghost use Rattle.pack_words.specs.LocalCells.{LocalCells, IsLocalCells};

    ghost Value = { LocalCells };

    ghost view = { λ a. record { lld = a.lld; cols = a.cols; words = a.words.items } };

    ghost invariant = { λ a. IsLocalCells (record { lld = a.lld; cols = a.cols; words = a.words.items }) };
}

impl LocalArray {
    /// An array of `cols` columns of `lld` words, all 0. Refused as `BadLead` where `lld` is 0 or above 2^24, then as
    /// `TooLarge` with the number of words where that is above 2^26.
    pub fn new(alloc: Global, lld: u32, cols: u32) -> Result<LocalArray, ArrayErr>
        ensures refused { IfSome (array_refusal lld cols) (λ e. result ≡ Err e) }
        ensures made { IfNone (array_refusal lld cols)
            (MatchResult result (λ a. a ≡ zeros lld cols) (λ e. e ≡ ArrayErr.NoMemory)) }
        ensures array { IfOk result (λ a. IsLocalCells a) }
    {
        if lld == 0 || lld > LONGEST {
            return Err(ArrayErr::BadLead);
        }
        let count = lld as u64 * cols as u64;
        if count > MOST {
            return Err(ArrayErr::TooLarge(count));
        }
        let words = vec![in alloc; 0; count as usize]?;
        Ok(LocalArray { lld, cols, words })
    }

    /// An array of `cols` columns of `lld` words, which are these words by columns. It takes no memory.
    pub fn from_words(lld: u32, cols: u32, words: Vec<i32>) -> LocalArray
        requires some_lead { 1 ≤ lld }
        requires lead { lld ≤ 2 ^ 24 }
        requires area { lld * cols ≤ 2 ^ 26 }
        requires whole { length words.items ≡ lld * cols }
        requires each { AllByRecursion (FitsSigned w32) words.items }
        ensures made { result ≡ record { lld = lld; cols = cols; words = words.items } }
        ensures array { IsLocalCells result }
    {
        LocalArray { lld, cols, words }
    }

    /// The leading dimension, which is the length of each column: 1 to 2^24.
    #[inline]
    pub fn lld(&self) -> u32
        ensures lead { result ≡ self.now.lld }
        ensures array { IsLocalCells self.now }
    {
        self.lld
    }

    /// The number of columns; times `lld` it is at most 2^26.
    #[inline]
    pub fn cols(&self) -> u32
        ensures columns { result ≡ self.now.cols }
        ensures array { IsLocalCells self.now }
    {
        self.cols
    }

    /// The word of row `i` and column `j`, both counted from 0.
    #[inline]
    pub fn get(&self, i: u32, j: u32) -> i32
        requires row { i < self.now.lld }
        requires column { j < self.now.cols }
        ensures { result ≡ word_at self.now i j }
    {
        self.words[j as usize * self.lld as usize + i as usize]
    }

    /// Sets the word of row `i` and column `j`, both counted from 0. All other words stay.
    #[inline]
    pub fn set(&mut self, i: u32, j: u32, word: i32)
        requires row { i < self.old.lld }
        requires column { j < self.old.cols }
        ensures after { self.new ≡ with_word self.old i j word }
        ensures word { word_at self.new i j ≡ word }
        ensures others { (k l : ℕ) → k < self.old.lld → (k ≢ i) ⊎ (l ≢ j) →
            word_at self.new k l ≡ word_at self.old k l }
        ensures array { IsLocalCells self.new }
    {
        self.words[j as usize * self.lld as usize + i as usize] = word;
    }

    /// The words of column `j`, counted from 0, by rows.
    #[inline]
    pub fn column(&self, j: u32) -> &[i32]
        requires { j < self.now.cols }
        ensures words { result.now ≡ column_of self.now j }
        ensures len { length result.now ≡ self.now.lld }
    {
        let start = j as usize * self.lld as usize;
        &self.words[start..start + self.lld as usize]
    }

    /// The `len` words of column `j` from row `i` on, both counted from 0.
    #[inline]
    pub fn part(&self, i: u32, j: u32, len: u32) -> &[i32]
        requires rows { i + len ≤ self.now.lld }
        requires column { j < self.now.cols }
        ensures words { result.now ≡ part_of self.now i j len }
        ensures len { length result.now ≡ len }
    {
        let start = j as usize * self.lld as usize + i as usize;
        &self.words[start..start + len as usize]
    }

    /// Sets the words of column `j` from row `i` on, both counted from 0. All other words stay.
    #[inline]
    pub fn set_part(&mut self, i: u32, j: u32, words: &[i32])
        requires rows { i + length words.now ≤ self.old.lld }
        requires column { j < self.old.cols }
        ensures after { self.new ≡ with_part self.old i j words.now }
        ensures array { IsLocalCells self.new }
    {
        let start = j as usize * self.lld as usize + i as usize;
        each_fits(words);
        put_part(&mut self.words, start, words);
    }
}
