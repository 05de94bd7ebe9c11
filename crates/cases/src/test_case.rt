//! A case: its words, its files, and what its next run shows.

use crate::open_file::OpenFile;
use crate::shown::Shown;
use itv_base::{NoMemory, Shelf, ShelfMem, Texts};
use std::alloc::Global;

/// A case, as far as its lines were read.
#[derive(Drop)]
pub struct TestCase {
    /// The words of the next run.
    pub words: Texts,
    /// The files.
    pub shelf: ShelfMem,
    /// The file whose lines are read.
    pub file: OpenFile,
    /// What the next run shows.
    pub shown: Shown,
    /// How many runs there were.
    pub runs: u32,
}

impl TestCase {
    /// A case without words and files.
    pub fn new(alloc: Global) -> Result<TestCase, NoMemory> {
        Ok(TestCase {
            words: Texts::new(alloc)?,
            shelf: ShelfMem::new(alloc)?,
            file: OpenFile::new(alloc),
            shown: Shown::new(alloc),
            runs: 0,
        })
    }

    /// The bytes of a file, or none if there is no such file.
    pub fn fetched(&mut self, alloc: Global, name: &str) -> Vec<u8> {
        match self.shelf.fetch(alloc, name, u32::MAX) {
            Ok(bytes) => bytes,
            Err(_) => Vec::new(alloc),
        }
    }
}
