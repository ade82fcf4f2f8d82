//! The lines, words and decimal numbers of texts: definitions and laws of them, and the words and numbers of a line that is at hand.
#![tactic(auto)]

mod integers;
mod lines;
mod numbers;
mod text;
mod words;

pub use integers::{Integer, read_i32, read_integer};
pub use lines::next_line;
pub use numbers::{is_digits, number_up_to, unsigned_up_to};
pub use text::is_text;
pub use words::{first_two_words, is_blank_byte, next_word, only_word};
