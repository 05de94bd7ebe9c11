//! Lines that a search proposes.

use edge_clauses::{Basis, StoredLine};
use itv_base::NoMemory;
use std::alloc::Global;

/// Lines to be proposed, and how far the search has come with them.
#[derive(Drop)]
pub struct Outbox {
    /// The last line comes first.
    lines: Vec<StoredLine>,
    /// How many entries of level 0 have been proposed to the checker, or need no line.
    pub told: usize,
    /// How many clauses the checker has kept, once it has taken the lines that wait.
    kept: u32,
    /// Whether the lines end the search once the checker has taken those that wait.
    pub is_ended: bool,
    /// Whether the search proposes nothing more than the lines that wait.
    pub is_over: bool,
}

impl Outbox {
    /// No lines yet.
    pub fn new(alloc: Global) -> Outbox {
        Outbox {
            lines: Vec::new(alloc),
            told: 0,
            kept: 0,
            is_ended: false,
            is_over: false,
        }
    }

    /// Adds a line that goes before those that wait.
    pub fn push(&mut self, line: StoredLine) -> Result<(), NoMemory> {
        self.lines.push(line)?;
        Ok(())
    }

    /// Takes the next line, if one waits.
    pub fn pop(&mut self) -> Option<StoredLine> {
        self.lines.pop()
    }

    /// Takes all lines back.
    pub fn clear(&mut self) {
        self.lines.clear();
    }

    /// Whether no lines wait.
    pub fn is_empty(&self) -> bool {
        self.lines.is_empty()
    }

    /// The basis of the next clause that the checker keeps. The one after it has the next number.
    pub fn next_kept(&mut self) -> Basis {
        let basis = Basis::ByKept(self.kept);
        self.kept = self.kept.saturating_add(1);
        basis
    }
}
