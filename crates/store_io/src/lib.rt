//! What the tools read from and write to: a store of files by name, and a sink of bytes.
#![tactic(auto)]

mod call_kind;
mod dir_store;
mod entries;
mod fails;
mod heap;
mod helpers;
mod mem_sink;
mod mem_steps;
mod mem_store;
mod sink;
mod std_sink;
mod store;

pub use call_kind::CallKind;
pub use dir_store::DirStore;
pub use helpers::{sink_all, store_all};
pub use mem_sink::MemSink;
pub use mem_store::MemStore;
pub use sink::{Sink, SinkErr};
pub use std_sink::StdSink;
pub use store::{Store, StoreErr};
