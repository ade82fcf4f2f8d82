//! What an operation does with messages.

/// What an operation does with messages. Ranks count from 0, lengths are in words.
#[derive(Clone, Copy, Debug, PartialEq, Eq)]
pub enum Kind {
    Send { to: u32, len: u32 },
    Recv { from: u32, len: u32 },
    Local,
}
