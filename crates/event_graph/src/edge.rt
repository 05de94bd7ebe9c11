//! Edges of a network.

use itv_base::EventId;

/// An edge between two events: the time of `to` less the time of `from` is at most `weight`, in picoseconds.
#[derive(Clone, Copy)]
pub struct Edge {
    pub from: EventId,
    pub to: EventId,
    pub weight: i64,
}
