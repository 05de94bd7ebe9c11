//! What is said after a run over files in memory.

use hints::{Looked, NameLook, said_after};
use itv_base::{NoMemory, ShelfMem, Texts};
use std::alloc::Global;

// The names of the files that a page hands over.
#[derive(Clone, Copy)]
struct HandedNames<'a>(&'a Texts);

impl NameLook for HandedNames<'_> {
    fn look(&self, name: &str) -> Looked {
        let names = self.0.as_slice();
        if names.iter().any(|handed| handed.as_text() == name) {
            Looked::File
        } else {
            Looked::Absent
        }
    }

    fn is_denied(&self, _name: &str) -> bool {
        false
    }

    fn is_output_closed(&self) -> bool {
        false
    }
}

/// What is said to a person after a run on words over the files of these names, which ended with this status.
pub fn reason_of(
    alloc: Global,
    words: &Texts,
    status: u8,
    names: &Texts,
    shelf: &mut ShelfMem,
) -> Result<String, NoMemory> {
    said_after(alloc, words, status, shelf, &HandedNames(names))
}
