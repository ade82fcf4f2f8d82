//! The rectangles of row runs by column runs that a cut touches, as a list that knows how many elements it selects.

ghost use Rattle.std.specs.Prelude.{◌≡◌, ◌≤◌, ◌^◌, length};
ghost use Rattle.pack_words.specs.Packing.{AllInCut, AllInArray, selected_count, packed, unpacked};
ghost use Rattle.pack_words.specs.Products.{touched_product, AreFewRuns};

use crate::counted::Counted;
use crate::cut::Cut;
use crate::local_array::LocalArray;
use crate::products::{count_product, pack_product, unpack_product};
use crate::span::Span;
use crate::walk::Walk;
use std::marker::Model;

/// Every row run by every column run that the cut `by` touches, by columns. Contracts see the list of the rectangles.
#[derive(Debug, Drop)]
pub struct Crossed {
    rows: Vec<Span>,
    cols: Vec<Span>,
    by: Cut,
    counted: Option<Counted>,
}

impl Model for Crossed {
    ghost use Rattle.std.specs.Prelude.{◌≡◌, List, IfSome};
    ghost use Rattle.pack_words.specs.declared.region.Region.{Region};
    ghost use Rattle.pack_words.specs.Packing.{selected_count};
    ghost use Rattle.pack_words.specs.Products.{touched_product, AreFewRuns};

    ghost Value = { List Region };

    ghost view = { λ c. touched_product c.by c.rows.items c.cols.items };

    ghost invariant = { λ c. AreFewRuns c.rows.items c.cols.items ×
        IfSome c.counted (λ k. k.count ≡ selected_count k.cut (touched_product c.by c.rows.items c.cols.items)) };
}

impl Crossed {
    /// Of the rectangles that the cut touches: at most 2^24 runs each.
    pub fn new(rows: Vec<Span>, cols: Vec<Span>, by: Cut) -> Crossed
        requires { AreFewRuns rows.items cols.items }
        ensures { result ≡ touched_product by rows.items cols.items }
    {
        Crossed {
            rows,
            cols,
            by,
            counted: None,
        }
    }

    /// Keeps the count for this cut.
    pub fn keep(&mut self, cut: &Cut, count: u32)
        requires { count ≡ selected_count cut.now self.old }
        ensures { self.new ≡ self.old }
    {
        self.counted = Some(Counted { cut: *cut, count });
    }

    /// How many elements they select, in constant time for the cut for which the count is kept.
    pub fn count(&self, cut: &Cut) -> u32
        requires cut { AllInCut cut.now self.now }
        requires most { selected_count cut.now self.now ≤ 2 ^ 26 }
        ensures { result ≡ selected_count cut.now self.now }
    {
        if let Some(counted) = &self.counted {
            if counted.cut == *cut {
                return counted.count;
            }
        }
        count_product(&self.rows, &self.cols, &self.by, cut)
    }

    /// As `Regions::pack`.
    pub fn pack(&self, array: &LocalArray, cut: &Cut, out: &mut [i32])
        requires cut { AllInCut cut.now self.now }
        requires array { AllInArray array.now self.now }
        requires len { length out.old ≡ selected_count cut.now self.now }
        ensures { out.new ≡ packed cut.now self.now array.now }
    {
        pack_product(array, &self.rows, &self.cols, &self.by, cut, out);
    }

    /// As `Regions::unpack`.
    pub fn unpack(&self, array: &mut LocalArray, cut: &Cut, words: &[i32])
        requires cut { AllInCut cut.now self.now }
        requires array { AllInArray array.old self.now }
        requires len { length words.now ≡ selected_count cut.now self.now }
        ensures { array.new ≡ unpacked cut.now self.now words.now array.old }
    {
        unpack_product(array, &self.rows, &self.cols, &self.by, cut, words);
    }

    /// A walk over the rectangles.
    pub fn walk(&self) -> Walk<'_>
        ensures { result ≡ self.now }
    {
        Walk::crossed(&self.rows, &self.cols, &self.by)
    }
}
