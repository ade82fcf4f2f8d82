//! Regions one after the other.

ghost use Rattle.std.specs.Prelude.{◌≡◌, ◌<◌, [], ◌∷◌, length, drop, slice_index_or, true, MatchOption};
ghost use Rattle.pack_words.specs.Packing.{no_region};
ghost use Rattle.pack_words.specs.Products.{is_touched, product, touched_product, AreFewRuns};
ghost use Rattle.pack_words.specs.Walks.{touched_from, rest_of};

use crate::cut::Cut;
use crate::products::{crossing_count, nth_crossing};
use crate::region::Region;
use crate::span::Span;
use crate::touched::touches;
use std::marker::Model;

/// A list, or the rectangles of row runs by column runs that a cut touches.
#[derive(Clone, Copy, Debug)]
pub enum Walked<'a> {
    Listed(&'a [Region]),
    Crossed {
        rows: &'a [Span],
        cols: &'a [Span],
        by: &'a Cut,
    },
}

/// A walk over regions. Contracts see those that are still to come.
#[derive(Debug, Drop)]
pub struct Walk<'a> {
    walked: Walked<'a>,
    // how many regions or rectangles come after
    at: usize,
}

impl<'a> Model for Walk<'a> {
    ghost use Rattle.std.specs.Prelude.{List};
    ghost use Rattle.pack_words.specs.declared.region.Region.{Region};
    ghost use Rattle.pack_words.specs.Walks.{rest_of, HasFewRuns};

    ghost Value = { List Region };

    ghost view = { λ w. rest_of w.walked w.at };

    ghost invariant = { λ w. HasFewRuns w.walked };
}

// Where the first rectangle from `at` on stands that the cut touches, or how many rectangles there are.
fn next_touched(rows: &[Span], cols: &[Span], by: &Cut, at: usize) -> usize
    requires { AreFewRuns rows.now cols.now }
    ensures same { touched_from by.now rows.now cols.now result ≡ touched_from by.now rows.now cols.now at }
    ensures touched { result < length (product rows.now cols.now) →
        is_touched by.now (slice_index_or (product rows.now cols.now) result no_region) ≡ true }
{
    let count = crossing_count(rows, cols);
    for k in at..count {
        if touches(by, &nth_crossing(rows, cols, k)) {
            return k;
        }
    }
    count.max(at)
}

// The region at a place of a list, and the place after it.
fn next_listed(list: &[Region], at: usize) -> Option<(Region, usize)>
    ensures { MatchOption result (drop at list.now ≡ []) (λ p. drop at list.now ≡ p.0 ∷ drop p.1 list.now) }
{
    if at >= list.len() {
        return None;
    }
    Some((list[at], at + 1))
}

// The first rectangle from `at` on that the cut touches, and the place after it.
fn next_crossed(rows: &[Span], cols: &[Span], by: &Cut, at: usize) -> Option<(Region, usize)>
    requires { AreFewRuns rows.now cols.now }
    ensures { MatchOption result (touched_from by.now rows.now cols.now at ≡ [])
        (λ p. touched_from by.now rows.now cols.now at ≡ p.0 ∷ touched_from by.now rows.now cols.now p.1) }
{
    let place = next_touched(rows, cols, by, at);
    if place >= crossing_count(rows, cols) {
        return None;
    }
    Some((nth_crossing(rows, cols, place), place + 1))
}

impl<'a> Walk<'a> {
    /// Over a list.
    pub fn listed(list: &'a [Region]) -> Walk<'a>
        ensures { result ≡ list.now }
    {
        Walk {
            walked: Walked::Listed(list),
            at: 0,
        }
    }

    /// Over the rectangles of the row runs by the column runs that the cut touches: at most 2^24 runs each.
    pub fn crossed(rows: &'a [Span], cols: &'a [Span], by: &'a Cut) -> Walk<'a>
        requires { AreFewRuns rows.now cols.now }
        ensures { result ≡ touched_product by.now rows.now cols.now }
    {
        Walk {
            walked: Walked::Crossed { rows, cols, by },
            at: 0,
        }
    }

    /// The next region, if there is one.
    pub fn next(&mut self) -> Option<Region>
        ensures { MatchOption result (self.old ≡ []) (λ r. self.old ≡ r ∷ self.new) }
    {
        let (region, at) = match self.walked {
            Walked::Listed(list) => next_listed(list, self.at)?,
            Walked::Crossed { rows, cols, by } => next_crossed(rows, cols, by, self.at)?,
        };
        self.at = at;
        Some(region)
    }
}
