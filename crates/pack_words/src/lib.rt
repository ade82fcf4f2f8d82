//! The words of a rank: its local arrays, the shapes and regions of which a move takes elements, and its memory as a node.
#![tactic(auto)]

mod accumulator;
mod array_err;
mod boxed_regions;
mod column;
mod coords;
mod copying;
mod counted;
mod crossed;
mod cut;
mod diag;
mod elements;
mod fold_kind;
mod grid_laws;
mod held_regions;
mod local_array;
mod packing;
mod part_laws;
mod parts;
mod product_laws;
mod products;
mod rank_mem;
mod rank_op;
mod region;
mod regions;
mod row_runs;
mod shape;
mod shapes;
mod span;
mod touched;
mod uplo;
mod walk;
mod written;

pub use array_err::ArrayErr;
pub use boxed_regions::BoxedRegions;
pub use coords::Coords;
pub use cut::{Cut, selected};
pub use diag::Diag;
pub use fold_kind::FoldKind;
pub use grid_laws::{
    appended_twice, appending_keeps, done_in_parts, plans_mean_their_lines, plans_run,
    shown_in_order,
};
pub use local_array::LocalArray;
pub use packing::{apart_names_once, count, pack, unpack, unpack_after_pack};
pub use part_laws::{parts_are_regions, parts_by_place};
pub use product_laws::{nothing_is_lost, products_lie, touching_tells};
pub use rank_mem::RankMem;
pub use rank_op::RankOp;
pub use region::Region;
pub use regions::Regions;
pub use shape::Shape;
pub use shapes::Shapes;
pub use span::Span;
pub use uplo::Uplo;
pub use walk::Walk;
