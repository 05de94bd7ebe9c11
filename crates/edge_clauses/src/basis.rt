//! Where clauses come from.

use event_graph::Edge;
use itv_base::EdgeName;

/// Where a clause comes from. Constraints are counted from 0, and so are the clauses that were kept.
#[derive(Clone, Copy)]
pub enum Basis {
    /// An always-edge.
    ByEdge(EdgeName),
    /// Any edge: times meet it, or they meet the edge that says the opposite.
    Either(Edge),
    /// A latest constraint whose high ends are all finite, or an earliest one whose low ends are: times meet the edge of some cause.
    ByChoice(u32),
    /// A clause that was kept.
    ByKept(u32),
}

/// A step of a walk back from an event. It takes the clause of a basis and goes back through one of its edges, counted from 0.
#[derive(Clone, Copy)]
pub struct WalkStep {
    pub basis: Basis,
    pub through: u32,
}
