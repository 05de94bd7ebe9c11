//! The file whose lines are read.

use itv_base::{NoMemory, ShelfMem};
use std::alloc::Global;

/// A file that is written line by line. A file that is closed gets no more lines.
#[derive(Drop)]
pub struct OpenFile {
    is_open: bool,
    name: String,
    bytes: Vec<u8>,
    // What stands after the last line that is read.
    rest: Vec<u8>,
}

impl OpenFile {
    /// A closed file.
    pub fn new(alloc: Global) -> OpenFile {
        OpenFile {
            is_open: false,
            name: String::new(alloc),
            bytes: Vec::new(alloc),
            rest: Vec::new(alloc),
        }
    }

    /// Opens a file of this name, with what stands before the lines that come, and after them.
    pub fn open(&mut self, name: &str, front: &[u8], rest: &[u8]) -> Result<(), NoMemory> {
        self.is_open = true;
        self.name.clear();
        self.name.push_str(name)?;
        self.bytes.clear();
        self.bytes.extend_from_slice(front)?;
        self.rest.clear();
        self.rest.extend_from_slice(rest)?;
        Ok(())
    }

    /// Puts bytes at the end.
    pub fn push(&mut self, bytes: &[u8]) -> Result<(), NoMemory> {
        self.bytes.extend_from_slice(bytes)?;
        Ok(())
    }

    /// Puts a line and its line end at the end.
    pub fn push_line(&mut self, line: &str) -> Result<(), NoMemory> {
        self.push(line.as_bytes())?;
        self.push(b"\n")
    }

    /// Puts a line at the end several times.
    pub fn repeat_line(&mut self, count: u32, line: &str) -> Result<(), NoMemory> {
        for _ in 0..count {
            self.push_line(line)?;
        }
        Ok(())
    }

    /// Puts bytes at the end that stand in a text as numbers of base 16.
    pub fn push_numbers(&mut self, text: &str) -> Result<(), NoMemory> {
        for word in text.split_whitespace() {
            self.bytes.push(u8::from_str_radix(word, 16).unwrap_or(0))?;
        }
        Ok(())
    }

    /// Closes the file if it is open, and puts it on a shelf.
    pub fn close(&mut self, alloc: Global, shelf: &mut ShelfMem) -> Result<(), NoMemory> {
        if self.is_open {
            self.is_open = false;
            self.bytes.extend_from_slice(&self.rest)?;
            shelf.add(alloc, self.name.as_str(), self.bytes.as_slice())?;
        }
        Ok(())
    }
}
