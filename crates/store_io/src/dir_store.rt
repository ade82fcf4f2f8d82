//! The files of the system, as a store that doesn't tell what it holds.
ghost use Rattle.std.specs.Prelude.{◌≡◌, false, [], is_some};
ghost use Rattle.std.specs.FinMap as map;

use crate::{Store, StoreErr};
use std::fs;
use std::io::{ErrorKind, Read, Write};
use std::rt::Files;

/// Files below the current folder, or at the given path.
///
/// A file that isn't there counts as a miss, and every other failure of the system as a fault: a folder in
/// the place of a file, a folder that is missing for an output, a path through a file, too long a name. A
/// write that takes nothing counts as a fault too. The counts stop at their last value.
#[derive(Drop)]
pub struct DirStore<R: Files + Drop> {
    rt: R,
    input: Option<R::File>,
    output: Option<R::File>,
    faults: u64,
    misses: u64,
    opens: u64,
}

impl<R: Files + Drop> DirStore<R> {
    /// A store over the system's files, with nothing open and nothing counted.
    pub fn new(rt: R) -> Self
        ensures told { (⟦<DirStore<R> as Store>⟧.state result).told ≡ false }
        ensures nothing_open { ((⟦<DirStore<R> as Store>⟧.state result).reading ≡ false) ×
            ((⟦<DirStore<R> as Store>⟧.state result).writing ≡ false) }
        ensures no_fault { (⟦<DirStore<R> as Store>⟧.state result).faults ≡ 0 }
        ensures no_miss { (⟦<DirStore<R> as Store>⟧.state result).misses ≡ 0 }
        ensures no_opening { (⟦<DirStore<R> as Store>⟧.state result).opens ≡ 0 }
    {
        DirStore {
            rt,
            input: None,
            output: None,
            faults: 0,
            misses: 0,
            opens: 0,
        }
    }
}

impl<R: Files + Drop> Store for DirStore<R> {
    ghost state = { λ s. record {
      told = false;
      files = map.empty;
      reading = is_some s.input;
      left = [];
      writing = is_some s.output;
      output = [];
      faults = s.faults;
      misses = s.misses;
      opens = s.opens;
    } };

    fn open_read(&mut self, name: &str) -> Result<(), StoreErr> {
        match fs::open(&self.rt, name) {
            Ok(file) => {
                self.input = Some(file);
                Ok(())
            }
            Err(error) => {
                self.input = None;
                if error.kind() == ErrorKind::NotFound {
                    self.misses = self.misses.saturating_add(1);
                    return Err(StoreErr::Missing);
                }
                self.faults = self.faults.saturating_add(1);
                Err(StoreErr::Failed)
            }
        }
    }

    fn read(&mut self, room: &mut [u8]) -> Result<usize, StoreErr> {
        let Some(file) = &mut self.input else {
            return Ok(0);
        };
        match file.read(room) {
            Ok(count) => Ok(count),
            Err(_) => {
                self.faults = self.faults.saturating_add(1);
                Err(StoreErr::Failed)
            }
        }
    }

    fn open_write(&mut self, name: &str) -> Result<(), StoreErr> {
        self.opens = self.opens.saturating_add(1);
        match fs::create(&self.rt, name) {
            Ok(file) => {
                self.output = Some(file);
                Ok(())
            }
            Err(_) => {
                self.output = None;
                self.faults = self.faults.saturating_add(1);
                Err(StoreErr::Failed)
            }
        }
    }

    fn write(&mut self, piece: &[u8]) -> Result<usize, StoreErr> {
        let Some(file) = &mut self.output else {
            unreachable!()
        };
        if piece.is_empty() {
            return Ok(0);
        }
        match file.write(piece) {
            Ok(count) if count > 0 => Ok(count),
            _ => {
                self.faults = self.faults.saturating_add(1);
                Err(StoreErr::Failed)
            }
        }
    }

    fn close(&mut self) -> Result<(), StoreErr> {
        self.input = None;
        self.output = None;
        Ok(())
    }
}
