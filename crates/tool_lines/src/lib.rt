//! Lines that the tool says, part by part and without memory, and the texts of faults in files.
#![tactic(auto)]

mod faults;
mod line;
mod phrase;

pub use faults::{matrix_phrase, piece_phrase};
pub use line::{Part, say, say_to_end, tell_at, tell_line};
pub use phrase::{Phrase, four, one, three, two};
