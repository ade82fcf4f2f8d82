//! What a grid program means: its lines done one after the other, or the first line that is refused, with its fault.
//!
//! Definitions and laws. The code that plans programs and runs them stands above, and nothing of it stands here.
#![tactic(auto)]

mod fault;
mod laws;

pub use fault::ExecFault;
pub use laws::{files_decide, first_refused_line, limits_are_kept, lines_are_done_in_turn};
