//! Lines of derivations.

use itv_base::{EdgeName, EventId};

/// Why an event has a value: by an always-edge to it, or by a latest constraint, counted from 0, that has the event as its target.
#[derive(Clone, Copy)]
pub enum Reason {
    ByEdge(EdgeName),
    ByLatest(u32),
}

/// A line of a derivation: the value of the event falls to this one, in picoseconds, for the reason.
#[derive(Clone, Copy)]
pub struct FallLine {
    pub event: EventId,
    pub value: i64,
    pub reason: Reason,
}
