//! A word with the place of the member that holds it.

/// A word, and the place in the scope list of the member that holds it.
#[derive(Clone, Copy, Debug, PartialEq, Eq)]
pub struct Held {
    pub value: i32,
    pub place: u32,
}
