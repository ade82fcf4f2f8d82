//! Lists of regions that know how many elements they select.

ghost use Rattle.std.specs.Prelude.{◌≡◌, ◌↔◌, ◌≤◌, ◌^◌, [], ◌∷◌, length, slice_index_or, IsTrue, IfOk};
ghost use Rattle.pack_words.specs.Packing.{no_region, AllInCut, AllInArray, selected_count, packed, unpacked};
ghost use Rattle.pack_words.specs.Products.{touched_product, AreFewRuns};
ghost use Rattle.pack_words.specs.HeldRegions.{regions_held, cut_of_size, IsCounted};

use crate::crossed::Crossed;
use crate::cut::Cut;
use crate::held_regions::HeldRegions;
use crate::local_array::LocalArray;
use crate::packing::{count, pack, unpack};
use crate::region::Region;
use crate::shape::Shape;
use crate::span::Span;
use crate::walk::Walk;
use std::alloc::{AllocError, Global};
use std::marker::Model;

/// A list of regions. Contracts see the list.
#[derive(Debug, Drop)]
pub struct Regions {
    held: HeldRegions,
}

impl Model for Regions {
    ghost use Rattle.std.specs.Prelude.{List};
    ghost use Rattle.pack_words.specs.declared.region.Region.{Region};
    ghost use Rattle.pack_words.specs.HeldRegions.{regions_held, IsCounted};

    ghost Value = { List Region };

    ghost view = { λ r. regions_held r.held };

    ghost invariant = { λ r. IsCounted r.held };
}

// The cut of that shape that has the region's size.
fn sized_cut(shape: Shape, region: &Region) -> Cut
    ensures { result ≡ cut_of_size shape region.now }
{
    Cut {
        shape,
        m: region.rows,
        n: region.cols,
    }
}

// How many elements the region selects, where `known` is the number for the cut that has its size.
fn count_whole(shape: Shape, region: &[Region; 1], known: u32, cut: &Cut) -> u32
    requires cut { AllInCut cut.now region.now }
    requires most { selected_count cut.now region.now ≤ 2 ^ 26 }
    requires known { known ≡ selected_count (cut_of_size shape (slice_index_or region.now 0 no_region)) region.now }
    ensures { result ≡ selected_count cut.now region.now }
{
    let whole = sized_cut(shape, &region[0]);
    if whole == *cut {
        return known;
    }
    count(region, cut)
}

// The region with its count, which is kept where it is the whole of the cut.
fn whole_counted(region: [Region; 1], cut: &Cut, count: u32) -> HeldRegions
    requires { count ≡ selected_count cut.now region }
    ensures same { regions_held result ≡ region }
    ensures counted { IsCounted result }
{
    let whole = sized_cut(cut.shape, &region[0]);
    if whole == *cut {
        return HeldRegions::Whole {
            shape: cut.shape,
            region,
            count,
        };
    }
    HeldRegions::One(region)
}

// The same with the count, where there is room for it.
fn with_count(held: HeldRegions, cut: &Cut, count: u32) -> HeldRegions
    requires { count ≡ selected_count cut.now (regions_held held) }
    ensures same { regions_held result ≡ regions_held held }
    ensures counted { IsCounted result }
{
    match held {
        HeldRegions::One(region) => whole_counted(region, cut, count),
        HeldRegions::Whole {
            shape: _,
            region,
            count: _,
        } => whole_counted(region, cut, count),
        HeldRegions::Listed(list) => HeldRegions::Listed(list),
        HeldRegions::Crossed(mut crossed) => {
            crossed.keep(cut, count);
            HeldRegions::Crossed(crossed)
        }
    }
}

impl Regions {
    /// These regions. It takes no memory, and keeps no count.
    pub fn new(list: Vec<Region>) -> Regions
        ensures { result ≡ list.items }
    {
        Regions {
            held: HeldRegions::Listed(list),
        }
    }

    /// Only this region. It takes no memory.
    pub fn one(region: Region) -> Regions
        ensures { result ≡ region ∷ [] }
    {
        Regions {
            held: HeldRegions::One([region]),
        }
    }

    /// Those rectangles of every row run by every column run that have a selected element of the cut, by columns: at most
    /// 2^24 runs each. It keeps only the runs.
    pub fn crossed(
        alloc: Global,
        rows: Vec<Span>,
        cols: Vec<Span>,
        cut: &Cut,
    ) -> Result<Regions, AllocError>
        requires { AreFewRuns rows.items cols.items }
        ensures { IfOk result (λ regions. regions ≡ touched_product cut.now rows.items cols.items) }
    {
        let crossed = Box::new(alloc, Crossed::new(rows, cols, *cut))?;
        Ok(Regions {
            held: HeldRegions::Crossed(crossed),
        })
    }

    /// The same regions, whose count for this cut is known from now on where they are made of runs, or are one region, the
    /// whole of the cut. It takes no memory.
    pub fn counted(self, cut: &Cut) -> Regions
        requires cut { AllInCut cut.now self }
        requires most { selected_count cut.now self ≤ 2 ^ 26 }
        ensures { result ≡ self }
    {
        let count = self.count(cut);
        let Regions { held } = self;
        Regions {
            held: with_count(held, cut, count),
        }
    }

    /// How many elements they select: in constant time where the count for this cut is known, run by run where they are made
    /// of runs and the shapes are whole, else column by column.
    pub fn count(&self, cut: &Cut) -> u32
        requires cut { AllInCut cut.now self.now }
        requires most { selected_count cut.now self.now ≤ 2 ^ 26 }
        ensures { result ≡ selected_count cut.now self.now }
    {
        match &self.held {
            HeldRegions::One(region) => count(region, cut),
            HeldRegions::Whole {
                shape,
                region,
                count: known,
            } => count_whole(*shape, region, *known, cut),
            HeldRegions::Listed(list) => count(list, cut),
            HeldRegions::Crossed(crossed) => crossed.count(cut),
        }
    }

    /// The words of the selected elements, region by region, each by columns, into `out`, which has their number.
    pub fn pack(&self, array: &LocalArray, cut: &Cut, out: &mut [i32])
        requires cut { AllInCut cut.now self.now }
        requires array { AllInArray array.now self.now }
        requires len { length out.old ≡ selected_count cut.now self.now }
        ensures { out.new ≡ packed cut.now self.now array.now }
    {
        match &self.held {
            HeldRegions::One(region) => pack(array, region, cut, out),
            HeldRegions::Whole {
                shape: _,
                region,
                count: _,
            } => pack(array, region, cut, out),
            HeldRegions::Listed(list) => pack(array, list, cut, out),
            HeldRegions::Crossed(crossed) => crossed.pack(array, cut, out),
        }
    }

    /// Each word to its element, region by region, each by columns. All other places stay.
    pub fn unpack(&self, array: &mut LocalArray, cut: &Cut, words: &[i32])
        requires cut { AllInCut cut.now self.now }
        requires array { AllInArray array.old self.now }
        requires len { length words.now ≡ selected_count cut.now self.now }
        ensures { array.new ≡ unpacked cut.now self.now words.now array.old }
    {
        match &self.held {
            HeldRegions::One(region) => unpack(array, region, cut, words),
            HeldRegions::Whole {
                shape: _,
                region,
                count: _,
            } => unpack(array, region, cut, words),
            HeldRegions::Listed(list) => unpack(array, list, cut, words),
            HeldRegions::Crossed(crossed) => crossed.unpack(array, cut, words),
        }
    }

    /// A walk over the regions.
    pub fn walk(&self) -> Walk<'_>
        ensures { result ≡ self.now }
    {
        match &self.held {
            HeldRegions::One(region) => Walk::listed(region),
            HeldRegions::Whole {
                shape: _,
                region,
                count: _,
            } => Walk::listed(region),
            HeldRegions::Listed(list) => Walk::listed(list),
            HeldRegions::Crossed(crossed) => crossed.walk(),
        }
    }

    /// Whether there is no region.
    pub fn is_empty(&self) -> bool
        ensures { IsTrue result ↔ (length self.now ≡ 0) }
    {
        self.walk().next().is_none()
    }
}
