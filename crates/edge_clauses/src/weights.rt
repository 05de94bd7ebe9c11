//! Edges of clauses: their opposites, and the weights that lines allow.

ghost use Rattle.std.specs.Prelude.{◌≡◌, ◌↔◌, All, IsTrue, IfOk};
ghost use Rattle.event_graph.specs.declared.edge.Edge.{Edge};
ghost use Rattle.edge_clauses.specs.Clauses.{IsAddable, IsNearClause, unmet};
ghost use Rattle.edge_clauses.specs.Lines.{refuting};

use crate::edge_list::EdgeList;
use event_graph::Edge;
use itv_base::NoMemory;
use std::alloc::Global;

/// The edge that times meet if and only if they do not meet this one.
pub fn unmet(edge: Edge) -> Edge
    ensures { result ≡ unmet edge }
{
    Edge {
        from: edge.to,
        to: edge.from,
        weight: -1 - edge.weight,
    }
}

/// Whether two edges are the same.
pub fn is_same(edge: Edge, other: Edge) -> bool
    ensures { IsTrue result ↔ (edge ≡ other) }
{
    edge.from == other.from && edge.to == other.to && edge.weight == other.weight
}

/// Whether the weight of an edge can be added to another.
pub fn is_addable(edge: Edge) -> bool
    ensures { IsTrue result ↔ IsAddable edge.weight }
{
    -1_152_921_504_606_846_976 <= edge.weight && edge.weight <= 1_152_921_504_606_846_976
}

/// Whether the weights of all edges can be added to others.
pub fn are_addable(edges: &[Edge]) -> bool
    ensures { IsTrue result ↔ IsNearClause edges.now }
{
    edges.iter().all(|edge| is_addable(*edge))
}

/// Whether the weights of the opposites of all edges can be added to others.
pub fn are_opposites_addable(edges: &[Edge]) -> bool
    ensures { IsTrue result ↔ All (λ (e : Edge). IsAddable (unmet e).weight) edges.now }
{
    edges.iter().all(|edge| is_opposite_addable(*edge))
}

// Whether the weight of the opposite of an edge can be added to another.
fn is_opposite_addable(edge: Edge) -> bool
    ensures { IsTrue result ↔ IsAddable (unmet edge).weight }
{
    is_addable(unmet(edge))
}

/// The clause that says that the edges are not all met.
pub fn refuting(alloc: Global, edges: &[Edge]) -> Result<EdgeList, NoMemory>
    ensures { IfOk result (λ clause. clause ≡ refuting edges.now) }
{
    let mut opposites = Vec::new(alloc);
    for edge in edges {
        opposites.push(unmet(*edge))?;
    }
    Ok(EdgeList { edges: opposites })
}

/// A list of edges as one that is kept.
pub fn list_of(alloc: Global, edges: &[Edge]) -> Result<EdgeList, NoMemory>
    ensures { IfOk result (λ list. list ≡ edges.now) }
{
    Ok(EdgeList {
        edges: Vec::from_slice(alloc, edges)?,
    })
}
