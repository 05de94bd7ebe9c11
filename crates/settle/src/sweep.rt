//! Bounds from which edges and rules are to be looked at again.

use crate::node::Node;
use crate::places::{at, put};
use itv_base::NoMemory;
use std::alloc::Global;

/// Waiting bounds. They are given in sweeps: upward by number, then downward, and so on.
///
/// Each bound has a bit in words of 64 bits, the least number first. It waits where the bit is set.
#[derive(Drop)]
pub struct Sweep {
    words: Vec<u64>,
    bounds: u32,
    waiting: u32,
    /// Where the sweep goes on.
    place: u32,
    is_up: bool,
    /// How many words were looked at, since this was asked last.
    looks: usize,
}

impl Sweep {
    /// A sweep over no bounds.
    pub fn new(alloc: Global) -> Sweep {
        Sweep {
            words: Vec::new(alloc),
            bounds: 0,
            waiting: 0,
            place: 0,
            is_up: true,
            looks: 0,
        }
    }

    /// Begins a sweep over this many bounds. All of them wait.
    pub fn begin(&mut self, bounds: u32) -> Result<(), NoMemory> {
        self.words.resize((bounds / 64) as usize + 1, 0)?;
        self.bounds = bounds;
        self.add_all();
        Ok(())
    }

    /// Makes all bounds wait.
    pub fn add_all(&mut self) {
        for bound in 0..self.bounds {
            self.add(Node(bound));
        }
    }

    /// Makes a bound wait.
    pub fn add(&mut self, node: Node) {
        let place = (node.0 / 64) as usize;
        let word = at(&self.words, place, u64::MAX);
        let bit = 1 << (node.0 % 64);
        if word & bit == 0 {
            put(&mut self.words, place, word | bit);
            self.waiting = self.waiting.saturating_add(1);
        }
    }

    /// Makes all bounds stop waiting, and begins a new sweep upward.
    pub fn clear(&mut self) {
        if 0 < self.waiting {
            self.looks = self.looks.saturating_add(self.words.len());
            self.words.fill(0);
        }
        self.waiting = 0;
        self.place = 0;
        self.is_up = true;
    }

    /// The next waiting bound, if there is one. It no longer waits.
    pub fn next(&mut self) -> Option<Node> {
        if self.waiting == 0 {
            return None;
        }
        let ahead = match self.ahead() {
            Some(node) => Some(node),
            None => {
                self.turn_round();
                self.ahead()
            }
        };
        match ahead {
            Some(node) => self.give(node),
            None => self.waiting = 0,
        }
        ahead
    }

    // The first waiting bound from the place on, in the direction of the sweep.
    fn ahead(&mut self) -> Option<Node> {
        if self.is_up {
            return self.first_from(self.place);
        }
        self.last_to(self.place)
    }

    // The waiting bound of the least number from this one on.
    fn first_from(&mut self, number: u32) -> Option<Node> {
        let mut mask = u64::MAX << (number % 64);
        for place in number / 64..self.bounds / 64 + 1 {
            self.looks = self.looks.saturating_add(1);
            let word = at(&self.words, place as usize, 0) & mask;
            if word != 0 {
                let first = place.saturating_mul(64);
                return Some(Node(first.saturating_add(word.trailing_zeros())));
            }
            mask = u64::MAX;
        }
        None
    }

    // The waiting bound of the greatest number up to this one.
    fn last_to(&mut self, number: u32) -> Option<Node> {
        let mut mask = u64::MAX >> (63 - number % 64);
        for place in (0..number / 64 + 1).rev() {
            self.looks = self.looks.saturating_add(1);
            let word = at(&self.words, place as usize, 0) & mask;
            if word != 0 {
                let last = place.saturating_mul(64).saturating_add(63);
                return Some(Node(last.saturating_sub(word.leading_zeros())));
            }
            mask = u64::MAX;
        }
        None
    }

    // Gives a waiting bound, and goes on after it. Turns round at both ends.
    fn give(&mut self, node: Node) {
        let place = (node.0 / 64) as usize;
        let word = at(&self.words, place, 0);
        put(&mut self.words, place, word & !(1 << (node.0 % 64)));
        self.waiting = self.waiting.saturating_sub(1);
        let is_end = if self.is_up {
            self.bounds <= node.0.saturating_add(1)
        } else {
            node.0 == 0
        };
        if is_end {
            self.turn_round();
        } else if self.is_up {
            self.place = node.0.saturating_add(1);
        } else {
            self.place = node.0.saturating_sub(1);
        }
    }

    // Turns round, to go over all bounds in the other direction.
    fn turn_round(&mut self) {
        self.is_up = !self.is_up;
        self.place = if self.is_up {
            0
        } else {
            self.bounds.saturating_sub(1)
        };
    }

    /// How many words of 64 bounds were looked at, since this was asked last.
    pub fn looks(&mut self) -> usize {
        let looks = self.looks;
        self.looks = 0;
        looks
    }
}
