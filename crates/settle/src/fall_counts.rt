//! How often bounds have fallen lately.

use crate::node::Node;
use crate::places::{at, put};
use itv_base::NoMemory;
use std::alloc::Global;

// How often a bound has fallen in an epoch, at which count a walk back is due, and whether it rests. In later epochs it has not fallen yet.
#[derive(Clone, Copy)]
struct FallCount {
    epoch: u64,
    count: u32,
    due: u32,
    rests: bool,
}

const NO_FALL: FallCount = FallCount {
    epoch: 0,
    count: 0,
    due: 3,
    rests: false,
};

/// How often each bound has fallen since all counts were reset.
#[derive(Drop)]
pub struct FallCounts {
    counts: Vec<FallCount>,
    epoch: u64,
}

impl FallCounts {
    /// Counts of no bounds.
    pub fn new(alloc: Global) -> FallCounts {
        FallCounts {
            counts: Vec::new(alloc),
            epoch: 0,
        }
    }

    /// Gets room for the counts of this many bounds. None has fallen yet.
    pub fn make_room(&mut self, bounds: usize) -> Result<(), NoMemory> {
        self.counts.resize(bounds, NO_FALL)?;
        Ok(())
    }

    /// Resets all counts.
    pub fn reset(&mut self) {
        self.epoch = self.epoch.saturating_add(1);
    }

    // The count of a bound in this epoch.
    fn of(&self, node: Node) -> FallCount {
        let fall = at(&self.counts, node.place(), NO_FALL);
        if fall.epoch == self.epoch {
            return fall;
        }
        FallCount {
            epoch: self.epoch,
            count: NO_FALL.count,
            due: NO_FALL.due,
            rests: false,
        }
    }

    /// Lets a bound rest until all counts are reset.
    pub fn let_rest(&mut self, node: Node) {
        let mut fall = self.of(node);
        fall.rests = true;
        put(&mut self.counts, node.place(), fall);
    }

    /// Whether a bound rests.
    pub fn rests(&self, node: Node) -> bool {
        self.of(node).rests
    }

    /// Whether a bound has fallen twice or more.
    pub fn has_fallen_again(&self, node: Node) -> bool {
        2 <= self.of(node).count
    }

    /// Counts a fall of a bound, and says whether it is the third, the sixth, the twelfth, and so on.
    pub fn is_due(&mut self, node: Node) -> bool {
        let mut fall = self.of(node);
        fall.count = fall.count.saturating_add(1);
        let is_due = fall.count == fall.due;
        if is_due {
            fall.due = fall.due.saturating_mul(2);
        }
        put(&mut self.counts, node.place(), fall);
        is_due
    }
}
