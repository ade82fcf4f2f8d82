//! Gates that see what threads do.
use rank_runner::Gate;
use std::sync::atomic::{AtomicU32, Ordering};
use std::thread;

/// Holds ranks 0 and 1 before their first operation until the other has come there too, for so many turns at most, and keeps whether both came.
#[derive(Drop)]
pub struct MeetingGate {
    came: AtomicU32,
    met: AtomicU32,
    turns: u32,
}

impl MeetingGate {
    pub fn new(turns: u32) -> MeetingGate {
        MeetingGate {
            came: AtomicU32::new(0),
            met: AtomicU32::new(0),
            turns,
        }
    }

    /// Whether each of both saw the other.
    pub fn have_met(&self) -> bool {
        self.met.load(Ordering::SeqCst) == 2
    }
}

impl Gate for MeetingGate {
    fn before(&self, rank: u32, k: u32) {
        if rank > 1 || k > 0 {
            return;
        }
        self.came.fetch_add(1, Ordering::SeqCst);
        for _ in 0..self.turns {
            if self.came.load(Ordering::SeqCst) == 2 {
                self.met.fetch_add(1, Ordering::SeqCst);
                return;
            }
            thread::yield_now();
        }
    }
}

/// Holds one rank before its first operation until so many operations of others were begun, for so many turns at most.
#[derive(Drop)]
pub struct LastGate {
    rank: u32,
    others: u32,
    begun: AtomicU32,
    turns: u32,
}

impl LastGate {
    pub fn new(rank: u32, others: u32, turns: u32) -> LastGate {
        LastGate {
            rank,
            others,
            begun: AtomicU32::new(0),
            turns,
        }
    }

    /// How many operations of other ranks were begun.
    pub fn begun(&self) -> u32 {
        self.begun.load(Ordering::SeqCst)
    }
}

impl Gate for LastGate {
    fn before(&self, rank: u32, k: u32) {
        if rank != self.rank {
            self.begun.fetch_add(1, Ordering::SeqCst);
            return;
        }
        if k > 0 {
            return;
        }
        for _ in 0..self.turns {
            if self.begun.load(Ordering::SeqCst) >= self.others {
                return;
            }
            thread::yield_now();
        }
    }
}
