//! What a pass of a pair's queue knows. No value of these types is made.
use std::collections::LinkedList;

/// Who holds a pass.
pub enum Role {
    Maker,
    Sender,
    Receiver,
}

/// One side of a pair: all its messages, the most that wait at once, and how many this side has put or taken.
pub struct Side {
    pub letters: LinkedList<LinkedList<i32>>,
    pub capacity: u64,
    pub done: u64,
}

/// The view of a pass.
pub struct Seen {
    pub role: Role,
    pub side: Side,
}
