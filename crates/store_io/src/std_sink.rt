//! A writer of the standard library, as a sink that doesn't tell what it took.
ghost use Rattle.std.specs.Prelude.{◌≡◌, false, []};

use crate::{Sink, SinkErr};
use std::io::Write;

/// A sink over a writer of the standard library.
///
/// Each failure of the writer counts as a fault, and so does a write that takes nothing. The count stops at
/// its last value.
#[derive(Drop)]
pub struct StdSink<W: Write + Drop> {
    writer: W,
    faults: u64,
}

impl<W: Write + Drop> StdSink<W> {
    /// A sink over the writer, with nothing counted.
    pub fn new(writer: W) -> Self
        ensures told { (⟦<StdSink<W> as Sink>⟧.state result).told ≡ false }
        ensures no_fault { (⟦<StdSink<W> as Sink>⟧.state result).faults ≡ 0 }
    {
        StdSink { writer, faults: 0 }
    }
}

impl<W: Write + Drop> Sink for StdSink<W> {
    ghost state = { λ s. record {
      told = false;
      bytes = [];
      faults = s.faults;
    } };

    fn write(&mut self, piece: &[u8]) -> Result<usize, SinkErr> {
        if piece.is_empty() {
            return Ok(0);
        }
        match self.writer.write(piece) {
            Ok(count) if count > 0 => Ok(count),
            _ => {
                self.faults = self.faults.saturating_add(1);
                Err(SinkErr::Failed)
            }
        }
    }
}
