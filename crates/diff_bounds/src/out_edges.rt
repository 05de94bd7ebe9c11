//! The always-edges of a network, by the event where they start.

ghost use Rattle.std.specs.Prelude.{◌<◌, ◌<ℤ◌, ◌≤ℤ◌, ℕ, IfOk, IfSome, MatchBool, OnOk, length};
ghost use Rattle.event_graph.specs.Network.{IsNet};
ghost use Rattle.diff_bounds.specs.Arcs.{AreAlwaysArcs};
ghost use Rattle.diff_bounds.specs.Step.Listing.{AreArcsSoFar, Grows, HasCause, HasName, IsPlaceOf, JoinsAt};

use crate::arc::Arc;
use event_graph::{ByEvent, Network};
use itv_base::{EdgeName, EventId, NoMemory, Side};
use std::alloc::Global;

/// The always-edges of a network, by the event where they start. Where several of them lead from one event to another, the list has one of least
/// weight. Takes all memory that is needed, or answers `NoMemory`.
pub fn out_edges(alloc: Global, net: &Network) -> Result<ByEvent<Arc>, NoMemory>
    requires { IsNet net.now }
    ensures { IfOk result (AreAlwaysArcs net.now) }
{
    let mut lists = ByEvent::new(alloc, net.events())?;
    for constraint in 0..net.len() {
        push_constraint(net, constraint, &mut lists)?;
    }
    Ok(lists)
}

// Adds the always-edges of a constraint.
fn push_constraint(net: &Network, constraint: u32, lists: &mut ByEvent<Arc>) -> Result<(), NoMemory>
    requires net { IsNet net.now }
    requires lists { AreArcsSoFar net.now lists.old }
    requires constraint { constraint < length net.now.constraints }
    ensures grows { OnOk result (Grows net.now lists.old lists.new) }
    ensures causes { OnOk result ((cause : ℕ) → HasCause net.now lists.new constraint cause) }
{
    for cause in 0..net.cause_count(constraint).max(1) {
        push_edge(
            net,
            EdgeName {
                constraint,
                cause,
                side: Side::Lower,
            },
            lists,
        )?;
        push_edge(
            net,
            EdgeName {
                constraint,
                cause,
                side: Side::Upper,
            },
            lists,
        )?;
    }
    Ok(())
}

// Adds the edge of a name to the list of its from-event, if it is an always-edge.
fn push_edge(net: &Network, name: EdgeName, lists: &mut ByEvent<Arc>) -> Result<(), NoMemory>
    requires { AreArcsSoFar net.now lists.old }
    ensures grows { OnOk result (Grows net.now lists.old lists.new) }
    ensures edge { OnOk result (HasName net.now lists.new name) }
{
    if net.is_always(name)
        && let Some(edge) = net.edge(name)
    {
        push_arc(Arc { name, edge }, lists)?;
    }
    Ok(())
}

// Adds an edge to the list of the event where it starts. If the list has an edge to the same event, only the lighter of the two stays.
fn push_arc(arc: Arc, lists: &mut ByEvent<Arc>) -> Result<(), NoMemory>
    requires { arc.edge.from.0 < length lists.old }
    ensures { OnOk result (JoinsAt arc lists.old lists.new) }
{
    let from = arc.edge.from;
    let list = lists.of(from);
    match place_of(list, arc.edge.to) {
        None => lists.push(from, arc)?,
        Some(place) if is_lighter(&arc, &list[place]) => lists.replace(from, place, arc),
        Some(_) => {}
    }
    Ok(())
}

// Whether an edge is lighter than another one.
fn is_lighter(arc: &Arc, other: &Arc) -> bool
    ensures { MatchBool result (arc.now.edge.weight <ℤ other.now.edge.weight) (other.now.edge.weight ≤ℤ arc.now.edge.weight) }
{
    arc.edge.weight < other.edge.weight
}

// The place of an edge that leads to an event, counted from 0, if there is one.
fn place_of(list: &[Arc], to: EventId) -> Option<usize>
    ensures { IfSome result (IsPlaceOf list.now to) }
{
    for (place, arc) in list.iter().enumerate() {
        if arc.edge.to == to {
            return Some(place);
        }
    }
    None
}
