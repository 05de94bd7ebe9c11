//! Edges with their names.

use event_graph::Edge;
use itv_base::EdgeName;

/// An edge of a network, with its name.
#[derive(Clone, Copy)]
pub struct Arc {
    pub name: EdgeName,
    pub edge: Edge,
}
