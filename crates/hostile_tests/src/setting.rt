//! Files and streams in memory, and runs of the tool over them.
use crate::texts::{text, words};
use file_tools::plain_tool;
use std::alloc::{AllocError, Global};
use store_io::{MemSink, MemStore};

/// A store and two streams, which the runs of the tool use.
#[derive(Drop)]
pub(crate) struct Setting {
    pub(crate) store: MemStore,
    pub(crate) out: MemSink,
    pub(crate) err: MemSink,
}

impl Setting {
    /// No files yet, and room for so many bytes of them.
    pub(crate) fn new(alloc: Global, room: usize) -> Result<Setting, AllocError> {
        Ok(Setting {
            store: MemStore::new(alloc, room, 300)?,
            out: MemSink::new(alloc, 4096)?,
            err: MemSink::new(alloc, 4096)?,
        })
    }

    /// Files by the short forms of their texts.
    pub(crate) fn with(alloc: Global, files: &[(&str, &str)]) -> Result<Setting, AllocError> {
        let mut setting = Setting::new(alloc, 32768)?;
        for (name, short) in files {
            let _fits = setting.put(alloc, *name, *short)?;
        }
        Ok(setting)
    }

    /// Streams that hold nothing, in the place of those that are there.
    pub(crate) fn clear_streams(&mut self, alloc: Global) -> Result<(), AllocError> {
        self.out = MemSink::new(alloc, 4096)?;
        self.err = MemSink::new(alloc, 4096)?;
        Ok(())
    }

    /// Sets a file by the short form of its text, and tells whether there was room.
    pub(crate) fn put(
        &mut self,
        alloc: Global,
        name: &str,
        short: &str,
    ) -> Result<bool, AllocError> {
        let text = text(alloc, short)?;
        Ok(self.store.put(name, text.as_bytes()))
    }

    /// The status of the tool on the words of a line.
    pub(crate) fn run(&mut self, alloc: Global, line: &str) -> Result<u8, AllocError> {
        let words = words(alloc, line)?;
        Ok(self.run_words(alloc, &words))
    }

    /// The status of the tool on some words.
    pub(crate) fn run_words(&mut self, alloc: Global, words: &[String]) -> u8 {
        plain_tool(alloc, words, &mut self.store, &mut self.out, &mut self.err).code()
    }

    /// Whether the store holds a file of this short form.
    pub(crate) fn has(&self, alloc: Global, name: &str, short: &str) -> Result<bool, AllocError> {
        let text = text(alloc, short)?;
        Ok(self.holds(name, text.as_bytes()))
    }

    /// Whether the store holds a file of these bytes.
    pub(crate) fn holds(&self, name: &str, bytes: &[u8]) -> bool {
        match self.store.file(name) {
            Some(held) => held == bytes,
            None => false,
        }
    }

    /// Whether just this line was told on the error stream, after the name of the tool, and nothing on the output.
    pub(crate) fn told(&self, alloc: Global, line: &str) -> Result<bool, AllocError> {
        let line = format!(in alloc; "gridtool: {line}\n")?;
        Ok(self.err.bytes() == line.as_bytes() && self.out.bytes().is_empty())
    }

    /// Whether just this short form was written to the output, and nothing told on the error stream.
    pub(crate) fn printed(&self, alloc: Global, short: &str) -> Result<bool, AllocError> {
        let text = text(alloc, short)?;
        Ok(self.out.bytes() == text.as_bytes() && self.err.bytes().is_empty())
    }

    /// Whether none of the files is held that lines of the tables save.
    pub(crate) fn saved_nothing(&self) -> bool {
        ["x.0.0", "o", "o.0.0"]
            .iter()
            .all(|name| self.store.file(*name).is_none())
    }
}
