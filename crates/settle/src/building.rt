//! The tables of a network that the search reads.

ghost use Rattle.std.specs.Prelude.{◌<◌, length};

use crate::arcs::{BoundEdges, Ground};
use crate::bound_rules::{BoundRules, BoundWay};
use crate::clause_store::ClauseStore;
use crate::literal::{Literal, SideLiteral};
use crate::node::Node;
use crate::side_table::SideTable;
use edge_clauses::Basis;
use event_graph::{Edge, Network};
use itv_base::{EdgeName, NoMemory, RuleKind, Side};
use std::alloc::Global;

/// The tables of a network: its sides, its edges, its rules, and its clauses. A latest or earliest constraint with two or more causes, none of whose choice
/// ends is open, has a rule and a clause.
#[derive(Drop)]
pub struct Tables {
    pub sides: SideTable,
    pub edges: BoundEdges,
    pub rules: BoundRules,
    pub clauses: ClauseStore,
    /// The rules of earliest constraints.
    pub earliest: Vec<usize>,
}

impl Tables {
    /// The tables of nothing.
    pub fn new(alloc: Global) -> Tables {
        Tables {
            sides: SideTable::new(alloc),
            edges: BoundEdges::new(alloc),
            rules: BoundRules::new(alloc),
            clauses: ClauseStore::new(alloc),
            earliest: Vec::new(alloc),
        }
    }

    /// Makes the tables of a network. There is nothing in them yet.
    pub fn fill(&mut self, alloc: Global, net: &Network) -> Result<(), NoMemory> {
        let mut choice = Choice::new(alloc);
        let filled = self.fill_by(alloc, net, &mut choice);
        drop(choice);
        filled
    }

    // Makes the tables of a network. Each constraint has its choice in the same memory.
    fn fill_by(
        &mut self,
        alloc: Global,
        net: &Network,
        choice: &mut Choice,
    ) -> Result<(), NoMemory> {
        self.push_sides(net, choice)?;
        self.push_edges(alloc, net)?;
        self.push_choices(net, choice)
    }

    // Adds the sides of all latest and earliest constraints.
    fn push_sides(&mut self, net: &Network, choice: &mut Choice) -> Result<(), NoMemory> {
        self.sides.make_room(side_count(net))?;
        for number in 0..net.len() {
            choice.take_edges(net, number)?;
            for edge in &choice.edges {
                let _literal = self.sides.literal(*edge)?;
            }
        }
        Ok(())
    }

    // Adds the always-edges of a network and the edges of its sides, and sorts them.
    fn push_edges(&mut self, alloc: Global, net: &Network) -> Result<(), NoMemory> {
        self.edges.make_room(bounds_of(net))?;
        for number in 0..net.len() {
            push_always(net, number, &mut self.edges)?;
        }
        push_literals(&self.sides, &mut self.edges)?;
        self.edges.sort(alloc, self.sides.len())
    }

    // Adds the rules and the clauses of a network.
    fn push_choices(&mut self, net: &Network, choice: &mut Choice) -> Result<(), NoMemory> {
        let literals = self.sides.len().saturating_mul(2);
        self.clauses.make_room(bounds_of(net), literals)?;
        self.rules.make_room(bounds_of(net), literals)?;
        for number in 0..net.len() {
            choice.take_edges(net, number)?;
            if 1 < choice.edges.len() {
                self.push_rule(net, number, choice)?;
                self.push_clause(number, choice)?;
            }
        }
        Ok(())
    }

    // Adds the rule of a constraint with this choice.
    fn push_rule(&mut self, net: &Network, number: u32, choice: &mut Choice) -> Result<(), NoMemory>
        requires number { number < length net.now.constraints }
    {
        let is_late = net.kind(number) == RuleKind::Late;
        let target = if is_late {
            Node::most(net.target(number))
        } else {
            Node::least(net.target(number))
        };
        if !is_late {
            self.earliest.push(self.rules.len())?;
        }
        choice.take_ways(is_late, &mut self.sides)?;
        self.rules
            .push(Basis::ByChoice(number), target, &choice.ways, &[])
    }

    // Adds the clause of a constraint with this choice.
    fn push_clause(&mut self, number: u32, choice: &mut Choice) -> Result<(), NoMemory> {
        choice.take_literals(&mut self.sides)?;
        self.clauses
            .push(Basis::ByChoice(number), &choice.literals, 0)
    }
}

// The choice of a constraint: the edges of which times meet one, in the order of the causes, and the ways and the literals of these edges.
#[derive(Drop)]
struct Choice {
    edges: Vec<Edge>,
    ways: Vec<BoundWay>,
    literals: Vec<Literal>,
}

impl Choice {
    // The choice of no constraint.
    fn new(alloc: Global) -> Choice {
        Choice {
            edges: Vec::new(alloc),
            ways: Vec::new(alloc),
            literals: Vec::new(alloc),
        }
    }

    // Takes the edges of a constraint. There are none if the constraint has one cause or is linear, or if an end on the side of the choice is open.
    fn take_edges(&mut self, net: &Network, number: u32) -> Result<(), NoMemory>
        requires number { number < length net.now.constraints }
    {
        self.edges.clear();
        let Some(side) = choice_side(net, number) else {
            return Ok(());
        };
        for cause in 0..net.cause_count(number) {
            let name = EdgeName {
                constraint: number,
                cause,
                side,
            };
            match net.edge(name) {
                Some(edge) => self.edges.push(edge)?,
                None => {
                    self.edges.clear();
                    return Ok(());
                }
            }
        }
        Ok(())
    }

    // Takes the ways of the edges in a rule of the latest or of the earliest.
    fn take_ways(&mut self, is_late: bool, sides: &mut SideTable) -> Result<(), NoMemory> {
        self.ways.clear();
        for edge in &self.edges {
            let side = sides.literal(*edge)?;
            let place = short(self.ways.len());
            self.ways.push(way_of(*edge, is_late, place, side))?;
        }
        Ok(())
    }

    // Takes the literals of the edges. Each is there once.
    fn take_literals(&mut self, sides: &mut SideTable) -> Result<(), NoMemory> {
        self.literals.clear();
        for edge in &self.edges {
            let side = sides.literal(*edge)?;
            if !has(&self.literals, side) {
                self.literals.push(Literal::Side(side))?;
            }
        }
        Ok(())
    }
}

// The way of an edge in a rule of the latest or of the earliest.
fn way_of(edge: Edge, is_late: bool, place: u32, side: SideLiteral) -> BoundWay {
    let from = if is_late {
        Node::most(edge.from)
    } else {
        Node::least(edge.to)
    };
    BoundWay {
        from,
        weight: edge.weight,
        place,
        side: Some(side),
    }
}

// Whether a literal of a side is in a clause.
fn has(literals: &[Literal], side: SideLiteral) -> bool {
    for literal in literals {
        if *literal == Literal::Side(side) {
            return true;
        }
    }
    false
}

/// A number as one of 32 bits, the greatest of them if it is beyond.
pub fn short(number: usize) -> u32 {
    number.min(u32::MAX as usize) as u32
}

// How many bounds the events of a network have.
fn bounds_of(net: &Network) -> usize {
    (net.events() as usize).saturating_mul(2)
}

// How many causes all latest and earliest constraints have.
fn side_count(net: &Network) -> usize {
    let mut count = 0usize;
    for number in 0..net.len() {
        if 1 < net.cause_count(number) {
            count = count.saturating_add(net.cause_count(number) as usize);
        }
    }
    count
}

// Adds the always-edges of a constraint. A linear constraint has cause 0 too.
fn push_always(net: &Network, number: u32, edges: &mut BoundEdges) -> Result<(), NoMemory>
    requires number { number < length net.now.constraints }
{
    for cause in 0..net.cause_count(number).max(1) {
        push_always_edge(net, number, cause, Side::Upper, edges)?;
        push_always_edge(net, number, cause, Side::Lower, edges)?;
    }
    Ok(())
}

// Adds the edge of this name, if it is an always-edge.
fn push_always_edge(
    net: &Network,
    constraint: u32,
    cause: u32,
    side: Side,
    edges: &mut BoundEdges,
) -> Result<(), NoMemory> {
    let name = EdgeName {
        constraint,
        cause,
        side,
    };
    if !net.is_always(name) {
        return Ok(());
    }
    match net.edge(name) {
        Some(edge) => edges.push(edge, Ground::Always(name)),
        None => Ok(()),
    }
}

// Adds the edges of all literals.
fn push_literals(sides: &SideTable, edges: &mut BoundEdges) -> Result<(), NoMemory> {
    for number in 0..sides.len().saturating_mul(2) {
        let literal = SideLiteral(number);
        edges.push(sides.edge(literal), Ground::Side(literal))?;
    }
    Ok(())
}

// The side on which times need only meet one cause of a constraint, if it has two or more.
fn choice_side(net: &Network, number: u32) -> Option<Side>
    requires number { number < length net.now.constraints }
{
    if net.cause_count(number) < 2 {
        return None;
    }
    match net.kind(number) {
        RuleKind::Late => Some(Side::Upper),
        RuleKind::Early => Some(Side::Lower),
        RuleKind::Lin => None,
    }
}
