//! How a list of regions is held.

use crate::crossed::Crossed;
use crate::region::Region;
use crate::shape::Shape;

/// One region in place, a list, or every row run by every column run.
#[derive(Debug, Drop)]
pub enum HeldRegions {
    One([Region; 1]),
    /// One region, the whole of a cut of this shape, and how many elements it selects.
    Whole {
        shape: Shape,
        region: [Region; 1],
        count: u32,
    },
    Listed(Vec<Region>),
    Crossed(Box<Crossed>),
}
