//! Files and streams in memory, and a run of the tool over them.
use crate::answers::Answer;
use file_tools::plain_tool;
use std::alloc::{AllocError, Global};
use store_io::{MemSink, MemStore};

/// A store and two streams.
#[derive(Drop)]
pub(crate) struct Setting {
    pub(crate) store: MemStore,
    pub(crate) out: MemSink,
    pub(crate) err: MemSink,
}

/// No files, and room for some.
pub(crate) fn empty_setting(alloc: Global) -> Result<Box<Setting>, AllocError> {
    let store = MemStore::new(alloc, 8192, 16)?;
    let out = MemSink::new(alloc, 512)?;
    let err = MemSink::new(alloc, 4096)?;
    Ok(Box::new(alloc, Setting { store, out, err })?)
}

impl Setting {
    /// The status of the tool on some words.
    pub(crate) fn run(&mut self, alloc: Global, words: &[String]) -> u8 {
        plain_tool(alloc, words, &mut self.store, &mut self.out, &mut self.err).code()
    }

    // Whether the store holds just what is saved under a name.
    fn holds(&self, name: &str, saved: &str) -> bool {
        match self.store.file(name) {
            Some(held) => held == saved.as_bytes(),
            None => saved.is_empty(),
        }
    }

    /// Whether a run on some words answers so, saves under this name, and writes nothing to the output.
    pub(crate) fn answers(
        &mut self,
        alloc: Global,
        words: &[String],
        name: &str,
        answer: &Answer,
    ) -> bool {
        let status = self.run(alloc, words);
        status == answer.status
            && self.holds(name, answer.saved.as_str())
            && self.err.bytes() == answer.told.as_bytes()
            && self.out.bytes().is_empty()
    }
}
