//! The edges that choices give.

ghost use Rattle.std.specs.Prelude.{◌≡◌, ◌-ℤ◌, IsSome, MatchBool, All, length};
ghost use Rattle.event_graph.specs.Network.{cause_at};
ghost use Rattle.event_graph.specs.Times.{IsTime};
ghost use Rattle.branch.specs.ChoiceEdges.{IsChoiceEdge};
ghost use Rattle.branch.specs.Step.Breaking.{IsBetween, IsEdgeBroken, IsEdgeMet};

use crate::levels::name_of;
use event_graph::{Choice, Network};
use itv_base::{EventId, RuleKind};

/// The edge that the choice of a cause gives: the time of `to` less the time of `from` is at most `weight` picoseconds. If `weight`
/// is `None`, the edge is open and demands nothing.
#[derive(Clone, Copy)]
pub struct ChoiceEdge {
    pub from: EventId,
    pub to: EventId,
    pub weight: Option<i64>,
}

impl ChoiceEdge {
    /// The choice edge of a cause: the upper edge, which leads to the target. For an earliest constraint it is the lower edge,
    /// which leads to the cause.
    pub fn of(net: &Network, constraint: u32, cause: u32) -> ChoiceEdge
        requires { IsSome (cause_at net.now constraint cause) }
        ensures { IsChoiceEdge net.now constraint cause result }
    {
        let target = net.target(constraint);
        let event = net.cause(constraint, cause).event;
        let (from, to) = match net.kind(constraint) {
            RuleKind::Lin | RuleKind::Late => (event, target),
            RuleKind::Early => (target, event),
        };
        let edge = net.edge(name_of(net, Choice { constraint, cause }));
        let weight = edge.map(|edge| edge.weight);
        ChoiceEdge { from, to, weight }
    }

    /// Whether the times break the edge. The times hold one entry per event.
    pub fn is_broken(&self, times: &[i64]) -> bool
        requires between { IsBetween (length times.now) self.now }
        requires times { All IsTime times.now }
        ensures { MatchBool result (IsEdgeBroken times.now self.now) (IsEdgeMet times.now self.now) }
    {
        match self.weight {
            None => false,
            Some(weight) => {
                weight < difference(times[self.from.0 as usize], times[self.to.0 as usize])
            }
        }
    }
}

// How much later one time is than another.
fn difference(from: i64, to: i64) -> i64
    requires from { IsTime from }
    requires to { IsTime to }
    ensures { result ≡ to -ℤ from }
{
    to - from
}
