//! Lists of regions on the heap.

ghost use Rattle.std.specs.Prelude.{◌≡◌, IfOk};

use crate::regions::Regions;
use std::alloc::{AllocError, Global};
use std::marker::Model;

/// A list of regions that lies on the heap, so that an operation with two of them stays small. Contracts see the list.
#[derive(Debug, Drop)]
pub struct BoxedRegions {
    regions: Box<Regions>,
}

impl Model for BoxedRegions {
    ghost use Rattle.std.specs.Prelude.{List};
    ghost use Rattle.pack_words.specs.declared.region.Region.{Region};

    ghost Value = { List Region };

    ghost view = { λ b. b.regions.value };
}

impl BoxedRegions {
    /// These regions on the heap.
    pub fn new(alloc: Global, regions: Regions) -> Result<BoxedRegions, AllocError>
        ensures { IfOk result (λ boxed. boxed ≡ regions) }
    {
        let regions = Box::new(alloc, regions)?;
        Ok(BoxedRegions { regions })
    }

    /// The list.
    pub fn regions(&self) -> &Regions
        ensures { result.now ≡ self.now }
    {
        &self.regions
    }
}
