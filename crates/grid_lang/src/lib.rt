//! Grid programs: their text, read line by line, and the program that it is.
#![tactic(auto)]

mod declarations;
mod exchanges;
mod fault;
mod halt;
mod ident;
mod keyword;
mod known;
mod letters;
mod line;
mod lines;
mod map_ranks;
mod named;
mod names;
mod numbers;
mod part;
mod program;
mod reader;
mod results;
mod words;

pub use fault::{LangErr, LangFault};
pub use ident::Ident;
pub use line::{Area, Line, Mr, Numbered};
pub use map_ranks::MapRanks;
pub use pack_words::{Diag, Uplo};
pub use program::{Program, parse_program};
