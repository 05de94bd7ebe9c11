//! Known edges.

ghost use Rattle.std.specs.Prelude.{◌≡◌, ◌↔◌, ◌+◌, ◌<◌, ◌≤◌, ◌++◌, ◌∷◌, [], IsTrue, IfOk, OnOk, OnErr, Any, ◌-◌, length, take, vec_capacity, vec_len};
ghost use Rattle.edge_clauses.specs.Lines.{Excludes};
ghost use Rattle.edge_clauses.specs.Step.Knowing.{IsChained, chain_of, known_base};

use event_graph::Edge;
use itv_base::NoMemory;
use std::alloc::Global;
use std::marker::Model;

/// Edges in chains. An edge is in the chain with the number of the sum of its events, modulo the number of chains. So an edge and one that excludes it are
/// in the same chain.
#[derive(Drop)]
pub struct EdgeChains {
    /// The edges, in the order in which they were added.
    pub edges: Vec<Edge>,
    /// For each edge one more than the place of the edge before it in its chain, or 0 if there is none.
    pub before: Vec<usize>,
    /// For each chain one more than the place of its last edge, or 0 if there is none.
    pub last: Vec<usize>,
}

/// Edges that are known to be met, in the order in which they became known, and how many of them were known when the block opened.
#[derive(Drop)]
pub struct KnownEdges {
    chains: EdgeChains,
    outside: usize,
}

impl Model for KnownEdges {
    ghost use Rattle.std.specs.Prelude.{◌≤◌, length, take};
    ghost use Rattle.edge_clauses.specs.Step.Knowing.{IsChained, KnownEdgesView};

    ghost Value = { KnownEdgesView };

    ghost view = { λ k. record { outside = take k.outside k.chains.edges.items; now = k.chains.edges.items } };

    ghost invariant = { λ k. IsChained k.chains × (k.outside ≤ length k.chains.edges.items) };
}

impl KnownEdges {
    /// No edge is known. Edges are found by so many chains.
    pub fn new(alloc: Global, chains: usize) -> Result<KnownEdges, NoMemory>
        requires some { 0 < chains }
        ensures none { IfOk result (λ known. known ≡ record { outside = []; now = [] }) }
    {
        let last = vec![in alloc; 0; chains]?;
        Ok(KnownEdges {
            chains: EdgeChains {
                edges: Vec::new(alloc),
                before: Vec::new(alloc),
                last,
            },
            outside: 0,
        })
    }

    /// Adds an edge.
    pub fn push(&mut self, edge: Edge) -> Result<(), NoMemory>
        ensures now { OnOk result (self.new.now ≡ self.old.now ++ edge ∷ []) }
        ensures outside { OnOk result (self.new.outside ≡ self.old.outside) }
        ensures kept { OnErr result (self.new ≡ self.old) }
    {
        make_room(&mut self.chains, 1)?;
        link(&mut self.chains, edge);
        Ok(())
    }

    /// Takes the edges as they are for those outside of the block.
    pub fn keep(&mut self)
        ensures now { self.new.now ≡ self.old.now }
        ensures outside { self.new.outside ≡ self.old.now }
    {
        self.outside = self.chains.edges.len();
    }

    /// Goes back to the edges outside of the block.
    pub fn undo(&mut self)
        ensures now { self.new.now ≡ self.old.outside }
        ensures outside { self.new.outside ≡ self.old.outside }
    {
        unlink_from(&mut self.chains, self.outside);
    }

    /// Goes back to the edges outside of the block if one is open, and adds edges for a block.
    pub fn open(&mut self, is_open: bool, edges: &[Edge]) -> Result<(), NoMemory>
        ensures outside { OnOk result (self.new.outside ≡ known_base is_open self.old) }
        ensures now { OnOk result (self.new.now ≡ known_base is_open self.old ++ edges.now) }
        ensures kept { OnErr result (self.new ≡ self.old) }
    {
        make_room(&mut self.chains, edges.len())?;
        if is_open {
            unlink_from(&mut self.chains, self.outside);
        }
        self.outside = self.chains.edges.len();
        link_all(&mut self.chains, edges);
        Ok(())
    }

    /// Whether some known edge is one that times cannot meet together with this one.
    pub fn has_excluding(&self, edge: Edge) -> bool
        ensures excluding { IsTrue result ↔ Any (Excludes edge) self.now.now }
    {
        has_excluding_in(&self.chains, edge)
    }
}

// Whether some edge in the chains is one that times cannot meet together with this one.
fn has_excluding_in(chains: &EdgeChains, edge: Edge) -> bool
    requires chained { IsChained chains.now }
    ensures excluding { IsTrue result ↔ Any (Excludes edge) chains.now.edges.items }
{
    let mut at = chains.last[chain_of(chains, edge)];
    while 0 < at {
        let place = at - 1;
        if excludes(edge, chains.edges[place]) {
            return true;
        }
        at = chains.before[place];
    }
    false
}

// Whether times that meet the known edge do not meet the other.
fn excludes(edge: Edge, known: Edge) -> bool
    ensures { IsTrue result ↔ Excludes edge known }
{
    known.from == edge.to && known.to == edge.from && known.weight <= -1 - edge.weight
}

// The chain of an edge.
fn chain_of(chains: &EdgeChains, edge: Edge) -> usize
    requires some { 0 < length chains.now.last.items }
    ensures chain { result ≡ chain_of (length chains.now.last.items) edge }
    ensures within { result < length chains.now.last.items }
{
    (edge.from.0 as usize + edge.to.0 as usize) % chains.last.len()
}

// Gets room for more edges.
fn make_room(chains: &mut EdgeChains, count: usize) -> Result<(), NoMemory>
    ensures edges { chains.new.edges.items ≡ chains.old.edges.items }
    ensures before { chains.new.before.items ≡ chains.old.before.items }
    ensures last { chains.new.last.items ≡ chains.old.last.items }
    ensures room { OnOk result (vec_len chains.new.edges + count ≤ vec_capacity chains.new.edges) }
    ensures room_before { OnOk result (vec_len chains.new.before + count ≤ vec_capacity chains.new.before) }
{
    chains.edges.try_reserve(count)?;
    chains.before.try_reserve(count)?;
    Ok(())
}

// Adds an edge. There is room for it.
fn link(chains: &mut EdgeChains, edge: Edge)
    requires chained { IsChained chains.old }
    requires room { vec_len chains.old.edges < vec_capacity chains.old.edges }
    requires room_before { vec_len chains.old.before < vec_capacity chains.old.before }
    ensures chained { IsChained chains.new }
    ensures edges { chains.new.edges.items ≡ chains.old.edges.items ++ edge ∷ [] }
    ensures len { vec_len chains.new.edges ≡ vec_len chains.old.edges + 1 }
    ensures len_before { vec_len chains.new.before ≡ vec_len chains.old.before + 1 }
    ensures capacity { vec_capacity chains.new.edges ≡ vec_capacity chains.old.edges }
    ensures capacity_before { vec_capacity chains.new.before ≡ vec_capacity chains.old.before }
{
    let chain = chain_of(chains, edge);
    let before = chains.last[chain];
    chains.before.push_reserved(before);
    chains.edges.push_reserved(edge);
    chains.last[chain] = chains.edges.len();
}

// Adds edges. There is room for them.
fn link_all(chains: &mut EdgeChains, edges: &[Edge])
    requires chained { IsChained chains.old }
    requires room { vec_len chains.old.edges + length edges.now ≤ vec_capacity chains.old.edges }
    requires room_before { vec_len chains.old.before + length edges.now ≤ vec_capacity chains.old.before }
    ensures chained { IsChained chains.new }
    ensures edges { chains.new.edges.items ≡ chains.old.edges.items ++ edges.now }
{
    for edge in edges {
        link(chains, *edge);
    }
}

// Takes the edges from a place on away.
fn unlink_from(chains: &mut EdgeChains, place: usize)
    requires chained { IsChained chains.old }
    requires place { place ≤ length chains.old.edges.items }
    ensures chained { IsChained chains.new }
    ensures edges { chains.new.edges.items ≡ take place chains.old.edges.items }
    ensures len { vec_len chains.new.edges ≤ vec_len chains.old.edges }
    ensures len_before { vec_len chains.new.before ≤ vec_len chains.old.before }
    ensures capacity { vec_capacity chains.new.edges ≡ vec_capacity chains.old.edges }
    ensures capacity_before { vec_capacity chains.new.before ≡ vec_capacity chains.old.before }
{
    while place < chains.edges.len() {
        unlink(chains);
    }
}

// Takes the last edge away.
fn unlink(chains: &mut EdgeChains)
    requires chained { IsChained chains.old }
    requires some { 0 < length chains.old.edges.items }
    ensures chained { IsChained chains.new }
    ensures edges { chains.new.edges.items ≡ take (vec_len chains.old.edges - 1) chains.old.edges.items }
    ensures len { vec_len chains.new.edges + 1 ≡ vec_len chains.old.edges }
    ensures len_before { vec_len chains.new.before + 1 ≡ vec_len chains.old.before }
    ensures capacity { vec_capacity chains.new.edges ≡ vec_capacity chains.old.edges }
    ensures capacity_before { vec_capacity chains.new.before ≡ vec_capacity chains.old.before }
{
    if let Some(edge) = chains.edges.pop() {
        if let Some(before) = chains.before.pop() {
            let chain = chain_of(chains, edge);
            chains.last[chain] = before;
        }
    }
}
