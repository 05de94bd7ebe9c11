//! How much sides were needed lately.

use crate::literal::Literal;
use crate::places::{at, put};
use itv_base::NoMemory;
use std::alloc::Global;

// The gain at the start, the greatest gain, and by what all counts are divided beyond that.
const FIRST_GAIN: u64 = 1024;

const MOST_GAIN: u64 = 1 << 50;

const SHRINKING: u64 = 1 << 40;

/// How much each side was needed lately, and by how much the next need counts.
#[derive(Drop)]
pub struct Activity {
    counts: Vec<u64>,
    gain: u64,
}

impl Activity {
    /// Of no sides.
    pub fn new(alloc: Global) -> Activity {
        Activity {
            counts: Vec::new(alloc),
            gain: FIRST_GAIN,
        }
    }

    /// Gets room for so many sides. None was needed yet.
    pub fn make_room(&mut self, sides: usize) -> Result<(), NoMemory> {
        self.counts.resize(sides, 0)?;
        Ok(())
    }

    /// How much a side was needed.
    pub fn of(&self, side: usize) -> u64 {
        at(&self.counts, side, 0)
    }

    /// Counts that the side of a literal was needed. A bound has none.
    pub fn count(&mut self, literal: Literal) {
        if let Literal::Side(literal) = literal {
            let side = literal.side();
            let count = self.of(side).saturating_add(self.gain);
            put(&mut self.counts, side, count);
        }
    }

    /// Makes later needs count for more. Where the counts are large, all become smaller.
    pub fn age(&mut self) {
        self.gain = self.gain.saturating_add(self.gain / 8);
        if self.gain <= MOST_GAIN {
            return;
        }
        for side in 0..self.counts.len() {
            let count = self.of(side) / SHRINKING;
            put(&mut self.counts, side, count);
        }
        self.gain = (self.gain / SHRINKING).max(FIRST_GAIN);
    }
}
