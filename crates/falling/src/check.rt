//! Which line the values of a derivation allow, and which value is due.

ghost use Rattle.std.specs.Prelude.{◌≡◌, ◌<◌, All, OnOk, IfOk, IfErr, IfSome, IfNone, length};
ghost use Rattle.event_graph.specs.Network.{IsNet};
ghost use Rattle.falling.specs.Checking.{IsEdgeTo, IsLatestTo, IsFallCheckFault, IsReasonFault};
ghost use Rattle.falling.specs.Derivation.{IsLineAllowed, IsDue, IsDueByEdge, IsDueByLatest};
ghost use Rattle.falling.specs.Cap.{IsNearValue};

use crate::fault::FallCheckFault;
use crate::line::{FallLine, Reason};
use crate::turn::{Due, latest_value, moved};
use event_graph::Network;
use itv_base::{EdgeName, EventId, RuleKind};

/// Whether the values allow a line, or else the first fault of the line.
pub fn judge(net: &Network, values: &[i64], line: FallLine) -> Result<(), FallCheckFault>
    requires net { IsNet net.now }
    requires event { line.event.0 < net.now.events }
    requires count { length values.now ≡ net.now.events }
    requires near { All IsNearValue values.now }
    ensures allowed { OnOk result (IsLineAllowed net.now values.now line) }
    ensures fault { IfErr result (IsFallCheckFault net.now values.now line) }
{
    let current = values[line.event.0 as usize];
    if current <= line.value {
        return Err(FallCheckFault::NotLower(current));
    }
    let due = match due_of(net, values, line) {
        Ok(due) => due,
        Err(fault) => return Err(fault),
    };
    if line.value != due.value {
        return Err(FallCheckFault::WrongValue(due.value));
    }
    Ok(())
}

// The value that the reason of a line gives.
fn due_of(net: &Network, values: &[i64], line: FallLine) -> Result<Due, FallCheckFault>
    requires net { IsNet net.now }
    requires count { length values.now ≡ net.now.events }
    requires near { All IsNearValue values.now }
    ensures due { IfOk result (λ d. IsDue net.now values.now line.event d.value line.reason) }
    ensures fault { IfErr result (IsReasonFault net.now line) }
{
    match line.reason {
        Reason::ByEdge(name) => match due_by_edge(net, values, line.event, name) {
            Some(due) => Ok(due),
            None => Err(FallCheckFault::NoEdge),
        },
        Reason::ByLatest(number) => match due_by_latest(net, values, line.event, number) {
            Some(due) => Ok(due),
            None => Err(FallCheckFault::NoLate),
        },
    }
}

// The value that an edge gives an event, if the edge is an always-edge to the event.
fn due_by_edge(net: &Network, values: &[i64], event: EventId, name: EdgeName) -> Option<Due>
    requires count { length values.now ≡ net.now.events }
    requires near { All IsNearValue values.now }
    ensures due { IfSome result (λ d. IsDueByEdge net.now values.now event d.value name) }
    ensures none { IfNone result (IsEdgeTo net.now event name → ⊥) }
{
    if !net.is_always(name) {
        return None;
    }
    let edge = net.edge(name)?;
    if edge.to != event {
        return None;
    }
    Some(Due {
        value: moved(values[edge.from.0 as usize], edge.weight),
    })
}

// The value that a latest constraint gives an event, if the event is its target and all high ends are finite.
fn due_by_latest(net: &Network, values: &[i64], event: EventId, number: u32) -> Option<Due>
    requires net { IsNet net.now }
    requires count { length values.now ≡ net.now.events }
    requires near { All IsNearValue values.now }
    ensures due { IfSome result (λ d. IsDueByLatest net.now values.now event d.value number) }
    ensures none { IfNone result (IsLatestTo net.now event number → ⊥) }
{
    if net.len() <= number || net.kind(number) != RuleKind::Late || net.target(number) != event {
        return None;
    }
    latest_value(net, number, values)
}
