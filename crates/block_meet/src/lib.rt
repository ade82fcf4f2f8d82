//! Where the blocks of one distribution meet those of another.
#![tactic(auto)]

mod axis;
mod laws;
mod pairs;
mod rectangles;
mod rows;
mod side;
mod table;

pub use axis::{Axis, Run};
pub use laws::{
    after_whole_turns, corner_tells, each_index_in_one_run, inside_a_run, meets_add_up,
    runs_of_an_axis,
};
pub use pairs::PairRuns;
pub use rectangles::{count_meets, meets, meets_of};
pub use rows::meet_rows;
pub use side::{Meet, Side, Sub};
pub use table::RunTable;
