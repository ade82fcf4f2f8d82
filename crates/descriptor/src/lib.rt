//! Array descriptors and their checks, as in ScaLAPACK: DESCINIT, CHK1MAT, and INFO of the two moves.
#![tactic(auto)]

mod bounds;
mod desc;
mod info;
mod matrix;
mod moves;
mod seat;
mod spread;

pub use desc::{Desc, descinit, descinit_at};
pub use info::Info;
pub use matrix::chk1mat;
pub use moves::{Moved, MrArgs, MrErr, info_gemr2d, info_trmr2d};
pub use seat::Seat;
pub use spread::{Llds, Spread};
