//! Lines of proofs.

use crate::basis::{Basis, WalkStep};
use event_graph::Edge;
use itv_base::EventId;

/// A bound of the time of an event, in picoseconds after the from-event, by the clause of a basis.
#[derive(Clone, Copy)]
pub struct EventBound {
    pub event: EventId,
    pub value: i64,
    pub basis: Basis,
}

/// A line of a proof by clauses.
#[derive(Drop)]
pub enum StoredLine {
    /// The upper bound of an event falls to a value.
    Fall(EventBound),
    /// The lower bound of an event rises to a value.
    Rise(EventBound),
    /// An edge becomes known by the clause of a basis.
    Know(Edge, Basis),
    /// The steps lead back from an event to it with a sum below 0. So times meet an edge of the clause, which is kept.
    Loop(EventId, Vec<WalkStep>, Vec<Edge>),
    /// A block opens that assumes edges, in place of an open block.
    Assume(Vec<Edge>),
    /// The open block closes. The clause that its edges are not all met is kept.
    Close,
}
