//! What a member of a combine does by itself.

ghost use Rattle.std.specs.Prelude.{◌≡◌, ◌≤◌};
ghost use Rattle.scope_ops.specs.CombineOps.{own_op};

use crate::part::Part;
use pack_words::{Coords, RankOp, Shape};

/// A local operation of a member: it loads the elements of its part into the accumulator, or stores those of the
/// accumulator, with the places of the holders where they are asked for.
#[derive(Clone, Copy)]
pub(crate) enum Own {
    Load,
    Store(Option<Coords>),
}

impl Own {
    // The operation of the member at a position of the scope list.
    pub(crate) fn op(self, part: &Part, position: u32) -> RankOp
        requires row { 1 ≤ part.now.i }
        requires column { 1 ≤ part.now.j }
        ensures { result ≡ own_op self part.now position }
    {
        let region = part.region(&part.cut(Shape::Ge));
        match self {
            Own::Load => RankOp::LoadAcc {
                array: part.array,
                region,
                place: position,
            },
            Own::Store(coords) => RankOp::StoreAcc {
                array: part.array,
                region,
                coords,
            },
        }
    }
}
