//! The constraints that a case can be split on.

ghost use Rattle.std.specs.Prelude.{◌≡◌, ◌<◌, IfOk, IfSome, IsSome, MatchBool, MatchOption, All, Some, None, length, slice_get};
ghost use Rattle.event_graph.specs.Times.{IsTime};
ghost use Rattle.branch.specs.declared.choice_edge.ChoiceEdge.{ChoiceEdge as ChoiceEdgeOf};
ghost use Rattle.branch.specs.Step.Breaking.{IsBetween};
ghost use Rattle.branch.specs.Splits.{HasChoiceEdges};
ghost use Rattle.branch.specs.Step.Breaking.{BreaksEach, MeetsSome};

use crate::choice_edge::ChoiceEdge;
use event_graph::Network;
use itv_base::{EventId, NoMemory};
use std::alloc::Global;
use std::marker::Model;

/// A constraint with two or more causes. Times that meet all always-edges break it if and only if they break all its choice edges,
/// so it keeps no other edge. Contracts see its number and these edges.
#[derive(Drop)]
pub struct Splittable {
    number: u32,
    edges: Vec<ChoiceEdge>,
}

impl Model for Splittable {
    ghost use Rattle.branch.specs.Splits.{SplittableView};

    ghost Value = { SplittableView };

    ghost view = { λ s. record { number = s.number; edges = s.edges.items } };
}

impl Splittable {
    /// Reads the constraint of this number from the network.
    pub fn new(alloc: Global, net: &Network, number: u32) -> Result<Splittable, NoMemory>
        requires { number < length net.now.constraints }
        ensures number { IfOk result (λ s. s.number ≡ number) }
        ensures edges { IfOk result (HasChoiceEdges net.now) }
    {
        let mut edges = Vec::new(alloc);
        for cause in 0..net.cause_count(number) {
            edges.push(ChoiceEdge::of(net, number, cause))?;
        }
        Ok(Splittable { number, edges })
    }

    /// Its number in the network.
    pub fn number(&self) -> u32
        ensures { result ≡ self.now.number }
    {
        self.number
    }

    /// The choice edges, one for each cause, in the order of the causes.
    pub fn edges(&self) -> &[ChoiceEdge]
        ensures { result.now ≡ self.now.edges }
    {
        &self.edges
    }

    /// The event at which the choice edge of a cause begins, if the edge ends at `event` and is not open.
    pub fn source(&self, cause: u32, event: EventId) -> Option<EventId>
        ensures starts { IfSome result (λ from. (c : ChoiceEdgeOf) × (slice_get self.now.edges cause ≡ Some c)
            × (c.to ≡ event) × IsSome c.weight × (c.from ≡ from)) }
        ensures none { (c : ChoiceEdgeOf) → result ≡ None → slice_get self.now.edges cause ≡ Some c
            → c.to ≡ event → c.weight ≡ None }
    {
        match self.edges.get(cause as usize) {
            Some(edge) if edge.to == event && edge.weight.is_some() => Some(edge.from),
            _ => None,
        }
    }

    /// Whether the times break all its choice edges. The times hold one entry per event.
    pub fn is_broken(&self, times: &[i64]) -> bool
        requires between { All (IsBetween (length times.now)) self.now.edges }
        requires times { All IsTime times.now }
        ensures { MatchBool result (BreaksEach times.now self.now) (MeetsSome times.now self.now) }
    {
        for edge in &self.edges {
            if !edge.is_broken(times) {
                return false;
            }
        }
        true
    }
}
