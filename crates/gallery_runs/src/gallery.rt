//! The programs of the gallery, and the files that they load and save.
use std::alloc::{Alloc, AllocError, Global};
use std::rt::Files;
use std::{fs, io};
use store_io::MemStore;

/// The programs.
pub const PROGRAMS: [&str; 11] = [
    "first.txt",
    "lu.txt",
    "maps.txt",
    "moves.txt",
    "pivots.txt",
    "ring.txt",
    "scopes.txt",
    "spread.txt",
    "topologies.txt",
    "trapezoids.txt",
    "triangles.txt",
];

/// The one file that they load.
const LOADED: &str = "m.mtx";

/// The files that they save.
pub const SAVED: [&str; 9] = [
    "t.0.0", "t.1.0", "n.mtx", "n.0.0", "n.1.0", "n.2.0", "n.3.0", "n.4.0", "n.5.0",
];

/// A file of the gallery.
#[derive(Drop)]
pub struct Text {
    pub name: &'static str,
    pub bytes: Vec<u8>,
}

/// All files of the gallery, from the current folder.
pub fn read_texts<R: Files + Alloc<A = Global>>(rt: &R, alloc: Global) -> io::Result<Vec<Text>> {
    let mut texts = Vec::new(alloc);
    for name in PROGRAMS {
        let bytes = fs::read(rt, name)?;
        texts.push(Text { name, bytes })?;
    }
    let bytes = fs::read(rt, LOADED)?;
    texts.push(Text {
        name: LOADED,
        bytes,
    })?;
    Ok(texts)
}

/// A store in memory that holds them.
pub fn stocked(alloc: Global, texts: &[Text]) -> Result<MemStore, AllocError> {
    let mut store = MemStore::new(alloc, 65536, 64)?;
    for text in texts {
        let _held = store.put(text.name, &text.bytes);
    }
    Ok(store)
}
