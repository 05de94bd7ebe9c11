//! Bounds of events, by number.

use itv_base::EventId;

/// A bound of an event, by number. Each event has two: one of its time, and after it one of its time negated. Both are bounds from above.
#[derive(Clone, Copy, PartialEq, Eq)]
pub struct Node(pub u32);

impl Node {
    /// The bound of the time of an event.
    pub fn most(event: EventId) -> Node {
        Node(event.0.saturating_mul(2))
    }

    /// The bound of the negated time of an event.
    pub fn least(event: EventId) -> Node {
        Node(event.0.saturating_mul(2).saturating_add(1))
    }

    /// The other bound of the same event.
    pub fn other(self) -> Node {
        Node(self.0 ^ 1)
    }

    /// The event.
    pub fn event(self) -> EventId {
        EventId(self.0 / 2)
    }

    /// Whether it is a bound of the time itself.
    pub fn is_most(self) -> bool {
        self.0 % 2 == 0
    }

    /// Its place in lists with an item for each bound.
    pub fn place(self) -> usize {
        self.0 as usize
    }
}
