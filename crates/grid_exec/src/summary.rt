//! The numbers of a program.

/// How large a program is: its ranks, the operations of its plan, their messages, and the words of all arrays and of all
/// messages.
#[derive(Clone, Copy, Debug, PartialEq, Eq)]
pub struct Summary {
    pub ranks: u32,
    pub operations: u32,
    pub messages: u32,
    pub words: u64,
}
