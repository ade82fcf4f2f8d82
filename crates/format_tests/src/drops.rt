//! A store that hands out its files byte by byte.
ghost use Rattle.std.specs.Prelude.{◌≡◌};

use store_io::{MemStore, Store, StoreErr};

/// A store in memory whose reads give one byte at a time.
#[derive(Drop)]
pub(crate) struct Drops {
    pub(crate) inner: MemStore,
}

impl Store for Drops {
    ghost state = { λ d. d.inner.outside };

    fn open_read(&mut self, name: &str) -> Result<(), StoreErr> {
        self.inner.open_read(name)
    }

    fn read(&mut self, room: &mut [u8]) -> Result<usize, StoreErr> {
        let count = room.len().min(1);
        self.inner.read(&mut room[..count])
    }

    fn open_write(&mut self, name: &str) -> Result<(), StoreErr> {
        self.inner.open_write(name)
    }

    fn write(&mut self, piece: &[u8]) -> Result<usize, StoreErr> {
        self.inner.write(piece)
    }

    fn close(&mut self) -> Result<(), StoreErr> {
        self.inner.close()
    }
}
