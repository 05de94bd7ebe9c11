//! What a search has not looked at yet.

use crate::fall_counts::FallCounts;
use crate::node::Node;
use crate::sweep::Sweep;
use std::alloc::Global;

/// What can't be.
#[derive(Clone, Copy)]
pub enum Conflict {
    /// The bound has fallen below what the other bound of its event allows.
    Bound(Node),
    /// No literal of the clause at this place can hold.
    Clause(usize),
}

/// A rule or a clause of a kept loop, by place.
#[derive(Clone, Copy)]
pub enum KeptLoop {
    Rule(usize),
    Clause(usize),
}

/// What has not been looked at yet: a conflict, entries of the trail, fresh loops, a bound for a walk back, and bounds that wait.
#[derive(Drop)]
pub struct Unseen {
    pub conflict: Option<Conflict>,
    /// The place of the next entry of the trail whose literal has not been looked at.
    pub heard: usize,
    /// The loops that were kept since the search was at level 0, and how many of them were looked at since it went back.
    pub fresh: Vec<KeptLoop>,
    pub refreshed: usize,
    /// A bound from which a walk back is to be tried.
    pub walk: Option<Node>,
    pub sweep: Sweep,
    pub falls: FallCounts,
}

impl Unseen {
    /// Nothing, over no bounds.
    pub fn new(alloc: Global) -> Unseen {
        Unseen {
            conflict: None,
            heard: 0,
            fresh: Vec::new(alloc),
            refreshed: 0,
            walk: None,
            sweep: Sweep::new(alloc),
            falls: FallCounts::new(alloc),
        }
    }

    /// A bound has fallen. It waits, and a walk back from it may be due. It may have fallen below what the other bound of its event allows.
    pub fn fall(&mut self, node: Node, crosses: bool) {
        self.sweep.add(node);
        if self.falls.is_due(node) {
            self.walk = Some(node);
        }
        if crosses {
            self.conflict = Some(Conflict::Bound(node));
        }
    }

    /// Nothing waits any more, and so many entries of the trail were looked at. Fresh loops are to be looked at again.
    pub fn clear(&mut self, entries: usize) {
        self.sweep.clear();
        self.falls.reset();
        self.refreshed = 0;
        self.walk = None;
        self.conflict = None;
        self.heard = entries;
    }
}
