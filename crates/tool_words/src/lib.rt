//! The words of the command line and what they ask for.
#![tactic(auto)]

mod asked;
mod command;
mod line;
mod numbers;
mod read;
mod table;
mod target;
mod word;

pub use asked::{Asked, How};
pub use read::read_words;
pub use word::Word;
