//! Lists of edges.

use event_graph::Edge;
use std::marker::Model;

/// A list of edges: a clause that was kept, or the edges that a block assumes.
#[derive(Drop)]
pub struct EdgeList {
    pub edges: Vec<Edge>,
}

impl Model for EdgeList {
    ghost use Rattle.std.specs.Prelude.{List};
    ghost use Rattle.event_graph.specs.declared.edge.Edge.{Edge};

    ghost Value = { List Edge };

    ghost view = { λ l. l.edges.items };
}
