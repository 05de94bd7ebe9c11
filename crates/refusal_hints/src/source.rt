//! A file that hints are about.

use crate::hint::Hint;
use itv_base::{FILE_LIMIT, Shelf};
use json_places::{Place, Step, character_at, place_of, value_at};
use std::alloc::Global;

/// A file: its name and its bytes.
#[derive(Clone, Copy)]
pub struct Source<'a> {
    pub name: &'a str,
    pub bytes: &'a [u8],
}

impl Source<'_> {
    /// Begins a line about the file as a whole.
    pub fn begin(self, hint: &mut Hint) {
        hint.begin();
        hint.put_plain(self.name);
        hint.put(": ");
    }

    /// Begins a line about a line and a column.
    pub fn begin_at(self, hint: &mut Hint, line: u64, column: u64) {
        hint.begin_at(self.name, Place { line, column });
    }

    /// Begins a line about a byte.
    pub fn begin_at_byte(self, hint: &mut Hint, at: usize) {
        hint.begin_at(self.name, place_of(self.bytes, at));
    }

    /// Begins a line about the value in a file of JSON to which some steps lead, or else about the last value to which they lead.
    pub fn begin_at_value(self, hint: &mut Hint, way: &[Step<'_>]) {
        self.begin_at_byte(hint, value_at(self.bytes, way));
    }

    /// Begins a line about a character of the text to which some steps lead. Characters count from 0.
    pub fn begin_at_character(self, hint: &mut Hint, way: &[Step<'_>], number: u64) {
        let quote = value_at(self.bytes, way);
        self.begin_at_byte(hint, character_at(self.bytes, quote, number));
    }
}

/// The bytes of a file of a design, if it can be read, and one more than the limit if it is longer.
pub fn bytes_of<H: Shelf>(alloc: Global, name: &str, shelf: &mut H) -> Option<Vec<u8>> {
    shelf.fetch(alloc, name, FILE_LIMIT + 1).ok()
}
