//! How a chain is read off the edges by which events were reached.

ghost use Rattle.std.specs.Prelude.{◌≡◌, ◌≤◌, [], ℤ, List, IfNone, IfSome, IsSomeAnd, length, vec_capacity};
ghost use Rattle.itv_base.specs.declared.names.EventId.{EventId as EventIdOf};
ghost use Rattle.event_graph.specs.Edges.{edge};
ghost use Rattle.chains.specs.Chain.{IsChain};
ghost use Rattle.chains.specs.Step.Spreading.{IsReached, LeadOn, LeadsFrom};

use crate::spread::Spread;
use event_graph::Network;
use itv_base::{EdgeName, EventId};

/// Follows the found edges from an event on, beginning with the edge that was found last. Each edge leads to the event to which all edges lead,
/// or to an event that was reached before. The names are put at the end of `names`, which is empty and has room for them. The found edges
/// are used up.
pub fn follow(net: &Network, from: EventId, spread: &mut Spread, names: &mut Vec<EdgeName>)
    requires empty { names.old.items ≡ [] }
    requires room { length spread.old.reached ≤ vec_capacity names.old }
    ensures chain { (times : List ℤ) (to : EventIdOf) → LeadOn net.now times to spread.old.found
        → IsReached net.now to spread.old.found from → IsChain net.now times from to names.new.items }
    ensures most { length names.new.items ≤ length spread.old.reached }
    ensures reached { spread.new.reached ≡ spread.old.reached }
    ensures capacity { vec_capacity names.new ≡ vec_capacity names.old }
{
    let mut at = from;
    let _found = spread.len();
    while let Some(name) = spread.pop() {
        if let Some(next) = end_from(net, name, at) {
            names.push_reserved(name);
            at = next;
        }
    }
}

// Where the edge of a name leads, if it leads from this event.
fn end_from(net: &Network, name: EdgeName, event: EventId) -> Option<EventId>
    ensures end { IfSome result (λ end. IsSomeAnd (edge net.now name)
        (λ e. (e.from ≡ event) × (e.to ≡ end))) }
    ensures none { IfNone result (LeadsFrom net.now event name → ⊥) }
{
    let edge = net.edge(name)?;
    if edge.from == event {
        Some(edge.to)
    } else {
        None
    }
}
