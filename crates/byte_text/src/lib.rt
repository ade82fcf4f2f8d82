//! A text that contracts see as its bytes.
#![tactic(auto)]

mod text;

pub use text::Text;
