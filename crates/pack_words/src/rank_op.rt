//! What a rank does in one step.

ghost use Rattle.std.specs.Prelude.{◌≡◌, ◌≤◌, ◌^◌, IfOk};
ghost use Rattle.pack_words.specs.declared.rank_op.RankOp.TheVariants.{Copy};
ghost use Rattle.pack_words.specs.Accumulators.{message_words};
ghost use Rattle.pack_words.specs.RankOps.{elements_used, IsWellMade, pulse_kind};

use crate::boxed_regions::BoxedRegions;
use crate::coords::Coords;
use crate::cut::Cut;
use crate::fold_kind::FoldKind;
use crate::region::Region;
use crate::regions::Regions;
use msg_core::{Kind, Step};
use std::alloc::{AllocError, Global};

/// An operation of a rank. Ranks and arrays count from 0.
#[derive(Debug, Drop)]
pub enum RankOp {
    /// Sends the packed words.
    Put {
        to: u32,
        array: u32,
        regions: Regions,
        cut: Cut,
    },
    /// Receives words and unpacks them.
    Get {
        from: u32,
        array: u32,
        regions: Regions,
        cut: Cut,
    },
    /// Packs words from one array and unpacks them into another.
    Copy {
        from_array: u32,
        from_regions: BoxedRegions,
        to_array: u32,
        to_regions: BoxedRegions,
        cut: Cut,
    },
    /// Loads the elements of the region, a whole matrix, into the accumulator, each with the place.
    LoadAcc {
        array: u32,
        region: Region,
        place: u32,
    },
    /// Sends the first `len` elements of the accumulator: all values, then with `pairs` all places.
    PutAcc {
        to: u32,
        len: u32,
        pairs: bool,
    },
    /// Receives elements and joins them with the first `len` of the accumulator, one by one. The message of a sum has
    /// values only.
    JoinAcc {
        from: u32,
        len: u32,
        fold: FoldKind,
    },
    /// Receives elements, as `PutAcc` sends them, in the place of the first `len` of the accumulator.
    GetAcc {
        from: u32,
        len: u32,
        pairs: bool,
    },
    /// Stores the values of the accumulator into the region, a whole matrix, and where asked the coordinates of the
    /// members that held them.
    StoreAcc {
        array: u32,
        region: Region,
        coords: Option<Coords>,
    },
    /// Sends a message of no words, or receives it.
    Pulse {
        peer: u32,
        sends: bool,
    },
}

// The number of words of a message of `len` elements.
#[inline]
fn message_len(len: u32, pairs: bool) -> u32
    requires { len ≤ 2 ^ 26 }
    ensures { result ≡ message_words pairs len }
{
    if pairs { 2 * len } else { len }
}

// A message of no words, to the other rank or from it.
#[inline]
fn pulse_of(peer: u32, sends: bool) -> Kind
    ensures { result ≡ pulse_kind sends peer }
{
    if sends {
        Kind::Send { to: peer, len: 0 }
    } else {
        Kind::Recv { from: peer, len: 0 }
    }
}

impl Step for RankOp {
    ghost use Rattle.pack_words.specs.RankOps.{rank_kind, IsWellMade};

    ghost kind_of = { rank_kind };

    ghost well_made = { IsWellMade };

    fn kind(&self) -> Kind {
        match self {
            RankOp::Put {
                to,
                array: _,
                regions,
                cut,
            } => Kind::Send {
                to: *to,
                len: regions.count(cut),
            },
            RankOp::Get {
                from,
                array: _,
                regions,
                cut,
            } => Kind::Recv {
                from: *from,
                len: regions.count(cut),
            },
            RankOp::Copy {
                from_array: _,
                from_regions: _,
                to_array: _,
                to_regions: _,
                cut: _,
            } => Kind::Local,
            RankOp::LoadAcc {
                array: _,
                region: _,
                place: _,
            } => Kind::Local,
            RankOp::PutAcc { to, len, pairs } => Kind::Send {
                to: *to,
                len: message_len(*len, *pairs),
            },
            RankOp::JoinAcc { from, len, fold } => Kind::Recv {
                from: *from,
                len: message_len(*len, fold.has_places()),
            },
            RankOp::GetAcc { from, len, pairs } => Kind::Recv {
                from: *from,
                len: message_len(*len, *pairs),
            },
            RankOp::StoreAcc {
                array: _,
                region: _,
                coords: _,
            } => Kind::Local,
            RankOp::Pulse { peer, sends } => pulse_of(*peer, *sends),
        }
    }
}

impl RankOp {
    /// The copy between two arrays, whose lists of regions go onto the heap.
    pub fn copy(
        alloc: Global,
        from_array: u32,
        from_regions: Regions,
        to_array: u32,
        to_regions: Regions,
        cut: Cut,
    ) -> Result<RankOp, AllocError>
        ensures { IfOk result (λ op. op ≡ Copy from_array from_regions to_array to_regions cut) }
    {
        Ok(RankOp::Copy {
            from_array,
            from_regions: BoxedRegions::new(alloc, from_regions)?,
            to_array,
            to_regions: BoxedRegions::new(alloc, to_regions)?,
            cut,
        })
    }

    /// The same operation, whose kind is told in constant time from now on where its regions are made of runs, or are one
    /// region, the whole of its cut. It takes no memory.
    pub fn counted(self) -> RankOp
        requires { IsWellMade self }
        ensures { result ≡ self }
    {
        match self {
            RankOp::Put {
                to,
                array,
                regions,
                cut,
            } => RankOp::Put {
                to,
                array,
                regions: regions.counted(&cut),
                cut,
            },
            RankOp::Get {
                from,
                array,
                regions,
                cut,
            } => RankOp::Get {
                from,
                array,
                regions: regions.counted(&cut),
                cut,
            },
            other => other,
        }
    }

    /// How many elements of the accumulator the operation uses.
    pub fn elements(&self) -> u32
        requires { IsWellMade self.now }
        ensures { result ≡ elements_used self.now }
    {
        match self {
            RankOp::Put {
                to: _,
                array: _,
                regions: _,
                cut: _,
            } => 0,
            RankOp::Get {
                from: _,
                array: _,
                regions: _,
                cut: _,
            } => 0,
            RankOp::Copy {
                from_array: _,
                from_regions: _,
                to_array: _,
                to_regions: _,
                cut: _,
            } => 0,
            RankOp::LoadAcc {
                array: _,
                region,
                place: _,
            } => region.rows * region.cols,
            RankOp::PutAcc {
                to: _,
                len,
                pairs: _,
            } => *len,
            RankOp::JoinAcc {
                from: _,
                len,
                fold: _,
            } => *len,
            RankOp::GetAcc {
                from: _,
                len,
                pairs: _,
            } => *len,
            RankOp::StoreAcc {
                array: _,
                region,
                coords: _,
            } => region.rows * region.cols,
            RankOp::Pulse { peer: _, sends: _ } => 0,
        }
    }
}
