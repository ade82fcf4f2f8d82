//! A sink of bytes, and what its one call promises.
ghost use Rattle.std.specs.Prelude.{◌≡◌, ◌≤◌, ◌<◌, ◌++◌, length, take, IfOk, OnOk, OnErr, IsTrue, ℕ};
ghost use Rattle.store_io.specs.Outside.{Poured, GivesCause, GrewByFront};

use thiserror::Error;

/// Why a sink didn't take bytes.
#[derive(Clone, Copy, Debug, PartialEq, Eq, Error)]
pub enum SinkErr {
    /// The sink failed. It counts as a fault.
    #[error("the sink failed")]
    Failed,
}

/// Takes bytes one after the other. It is always open.
///
/// A sink tells which bytes it took, or it doesn't (`told`). Its count of faults is there for every sink.
pub trait Sink {
    ghost state: { Self → Poured };

    /// Appends some front of the piece, and answers how many bytes it took.
    ///
    /// At least one byte of a piece that isn't empty is taken. After `Failed` some front of the piece, maybe
    /// none of it, was appended.
    fn write(&mut self, piece: &[u8]) -> Result<usize, SinkErr>
        ensures bound { IfOk result (λ k. k ≤ length piece.now) }
        ensures progress { IfOk result (λ k. 0 < length piece.now → 0 < k) }
        ensures written { IsTrue (state self.old).told →
            IfOk result (λ k. (state self.new).bytes ≡ (state self.old).bytes ++ take k piece.now) }
        ensures failed { IsTrue (state self.old).told →
            OnErr result (GrewByFront (state self.old) (state self.new) piece.now) }
        ensures same { (state self.new).told ≡ (state self.old).told }
        ensures cause { GivesCause (state self.old) (state self.new) result };
}
