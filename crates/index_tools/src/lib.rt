//! The index functions of block-cyclic spreading, as in ScaLAPACK TOOLS.
#![tactic(auto)]

mod indices;
mod multiples;

pub use indices::{indxg2l, indxg2p, indxl2g, infog1l, numroc};
pub use multiples::{iceil, ilcm};
