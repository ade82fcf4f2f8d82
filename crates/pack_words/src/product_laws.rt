//! Laws of regions that a cut touches, for those that build on them.

ghost use Rattle.std.specs.Prelude.{◌≡◌, ◌<◌, ◌↔◌, ℕ, List, true};
ghost use Rattle.std.specs.List.{AllByRecursion};
ghost use Rattle.pack_words.specs.declared.cut.Cut.{Cut};
ghost use Rattle.pack_words.specs.declared.region.Region.{Region};
ghost use Rattle.pack_words.specs.declared.span.Span.{Span};
ghost use Rattle.pack_words.specs.Packing.{IsInShape, AllInCut, spots};
ghost use Rattle.pack_words.specs.Products.{is_touched, HasElement, product, touched_product, LiesWithin};

/// Runs that lie within the cut and the array make rectangles that do.
pub fn products_lie()
    ensures { (cut : Cut) (lld count : ℕ) (rows cols : List Span) →
        AllByRecursion (LiesWithin cut.m lld) rows → AllByRecursion (LiesWithin cut.n count) cols →
        AllInCut cut (product rows cols) × AllByRecursion (IsInShape lld count) (product rows cols) }
{}

/// A region of at least one row and column has a selected element just where the cut touches it.
pub fn touching_tells()
    ensures { (cut : Cut) (r : Region) → 0 < r.rows → 0 < r.cols → (is_touched cut r ≡ true) ↔ HasElement cut r }
{}

/// Leaving out the rectangles that the cut does not touch loses no selected element, and changes no order.
pub fn nothing_is_lost()
    ensures { (cut : Cut) (rows cols : List Span) →
        spots cut (touched_product cut rows cols) ≡ spots cut (product rows cols) }
{}
