//! The kinds of calls of a store.
ghost use Rattle.std.specs.Prelude.{◌≡◌};
ghost use Rattle.store_io.specs.Fails.{kind_number};

/// A kind of call of a store.
#[derive(Clone, Copy, Debug, PartialEq, Eq)]
pub enum CallKind {
    /// An opening for reading.
    OpenRead,
    /// A read.
    Read,
    /// An opening for writing.
    OpenWrite,
    /// A write.
    Write,
    /// A close.
    Close,
}

impl CallKind {
    pub(crate) fn number(self) -> u8
        ensures { result ≡ kind_number self }
    {
        match self {
            CallKind::OpenRead => 0,
            CallKind::Read => 1,
            CallKind::OpenWrite => 2,
            CallKind::Write => 3,
            CallKind::Close => 4,
        }
    }
}
