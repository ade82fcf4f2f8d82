//! What is called before each operation of a rank.

/// Called before a rank's k-th own operation, from 0, once for each. Threads share it.
pub trait Gate {
    fn before(&self, rank: u32, k: u32);
}

/// It does nothing.
pub struct OpenGate;

impl Gate for OpenGate {
    fn before(&self, _rank: u32, _k: u32) {}
}
