//! A store of one long file.
ghost use Rattle.std.specs.Prelude.{◌≡◌, false, []};
ghost use Rattle.std.specs.FinMap as map;

use crate::long_text::LongText;
use store_io::{Store, StoreErr};

/// A text as a file, which is there under every name. What is written is forgotten.
#[derive(Drop)]
pub(crate) struct LongStore {
    text: LongText,
    place: u64,
    reading: bool,
    writing: bool,
    opens: u64,
}

impl LongStore {
    /// Nothing is open.
    pub(crate) fn new(text: LongText) -> LongStore {
        LongStore {
            text,
            place: 0,
            reading: false,
            writing: false,
            opens: 0,
        }
    }
}

impl Store for LongStore {
    ghost state = { λ s. record {
      told = false;
      files = map.empty;
      reading = s.reading;
      left = [];
      writing = s.writing;
      output = [];
      faults = 0;
      misses = 0;
      opens = s.opens;
    } };

    fn open_read(&mut self, _name: &str) -> Result<(), StoreErr> {
        self.place = 0;
        self.reading = true;
        Ok(())
    }

    fn read(&mut self, room: &mut [u8]) -> Result<usize, StoreErr> {
        if !self.reading {
            return Ok(0);
        }
        let count = self.text.copy(self.place, room);
        self.place = self.place.saturating_add(count as u64);
        Ok(count)
    }

    fn open_write(&mut self, _name: &str) -> Result<(), StoreErr> {
        self.opens = self.opens.saturating_add(1);
        self.writing = true;
        Ok(())
    }

    fn write(&mut self, piece: &[u8]) -> Result<usize, StoreErr> {
        Ok(piece.len())
    }

    fn close(&mut self) -> Result<(), StoreErr> {
        self.reading = false;
        self.writing = false;
        Ok(())
    }
}
