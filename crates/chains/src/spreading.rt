//! How events are reached, backwards along the edges that bind and that times meet with equality.

ghost use Rattle.std.specs.Prelude.{◌≡◌, ◌<◌, ◌≤ℤ◌, ◌↔◌, ℕ, false, All, IfNone, IfSome, IsSomeAnd, IsTrue, length};
ghost use Rattle.itv_base.specs.declared.names.EdgeName.{EdgeName as NameOfEdge};
ghost use Rattle.itv_base.specs.declared.names.EventId.{EventId as EventIdOf};
ghost use Rattle.event_graph.specs.Edges.{edge};
ghost use Rattle.event_graph.specs.Network.{IsNet};
ghost use Rattle.event_graph.specs.Times.{IsTime, separation};
ghost use Rattle.chains.specs.Chain.{IsBinding, IsTight, LeavesNoRoom};
ghost use Rattle.chains.specs.Closed.{Has, IsClosedSet};
ghost use Rattle.chains.specs.Step.Spreading.{IsSpread, IsTightEdge, LooksAt};

use crate::spread::Spread;
use event_graph::{Edge, Network, separation};
use itv_base::{EdgeName, EventId, Side};

/// Reaches events backwards until the one that is looked for is reached, or no more can be. Returns whether it was reached.
pub fn spread_back(net: &Network, times: &[i64], from: EventId, spread: &mut Spread) -> bool
    requires net { IsNet net.now }
    requires count { length times.now ≡ net.now.events }
    requires times { All IsTime times.now }
    requires from { from.0 < net.now.events }
    requires events { length spread.old.reached ≡ net.now.events }
    ensures events { length spread.new.reached ≡ length spread.old.reached }
    ensures spreads { (to : EventIdOf) → IsSpread net.now times.now to spread.old
        → IsSpread net.now times.now to spread.new }
    ensures reached { IsTrue result → Has spread.new.reached from }
    ensures unreached { result ≡ false → Has spread.new.reached from → ⊥ }
    ensures closed { result ≡ false → IsClosedSet net.now times.now spread.new.reached }
{
    while !spread.has(from) {
        let count = spread.len();
        sweep(net, times, spread);
        if spread.len() == count {
            return false;
        }
    }
    true
}

// Looks at all edges, from the first constraint to the last and back. So one sweep finds edges that lead through the constraints in either
// order.
fn sweep(net: &Network, times: &[i64], spread: &mut Spread)
    requires net { IsNet net.now }
    requires count { length times.now ≡ net.now.events }
    requires times { All IsTime times.now }
    requires events { length spread.old.reached ≡ net.now.events }
    ensures { LooksAt net.now times.now (λ name. Unit {0}) spread.old spread.new }
{
    for number in 0..net.len() {
        look_along(net, times, number, spread);
    }
    for number in (0..net.len()).rev() {
        look_along(net, times, number, spread);
    }
}

// Looks at the edges of a constraint.
fn look_along(net: &Network, times: &[i64], number: u32, spread: &mut Spread)
    requires net { IsNet net.now }
    requires number { number < length net.now.constraints }
    requires count { length times.now ≡ net.now.events }
    requires times { All IsTime times.now }
    requires events { length spread.old.reached ≡ net.now.events }
    ensures { LooksAt net.now times.now (λ (name : NameOfEdge). name.constraint ≡ number) spread.old spread.new }
{
    // A linear constraint names no cause, and has its from-event as cause 0.
    for cause in 0..net.cause_count(number).max(1) {
        let lower = EdgeName {
            constraint: number,
            cause,
            side: Side::Lower,
        };
        look(net, times, lower, spread);
        let upper = EdgeName {
            constraint: number,
            cause,
            side: Side::Upper,
        };
        look(net, times, upper, spread);
    }
}

// Looks at an edge. If it is tight, and leads from an event that was not reached to an event that was, then its first event is reached too.
fn look(net: &Network, times: &[i64], name: EdgeName, spread: &mut Spread)
    requires net { IsNet net.now }
    requires count { length times.now ≡ net.now.events }
    requires times { All IsTime times.now }
    requires events { length spread.old.reached ≡ net.now.events }
    ensures { LooksAt net.now times.now (λ other. other ≡ name) spread.old spread.new }
{
    if let Some(edge) = tight_edge(net, times, name)
        && spread.has(edge.to)
        && !spread.has(edge.from)
    {
        spread.reach(edge.from, name);
    }
}

// The edge of a name, if it is there and binds, and the times meet it with equality.
fn tight_edge(net: &Network, times: &[i64], name: EdgeName) -> Option<Edge>
    requires net { IsNet net.now }
    requires count { length times.now ≡ net.now.events }
    requires times { All IsTime times.now }
    ensures edge { IfSome result (IsTightEdge net.now times.now name) }
    ensures from { IfSome result (λ e. e.from.0 < net.now.events) }
    ensures to { IfSome result (λ e. e.to.0 < net.now.events) }
    ensures none { IfNone result (IsTight net.now times.now name → ⊥) }
{
    let edge = net.edge(name)?;
    if separation(times, edge.from, edge.to) == edge.weight && is_binding(net, times, name) {
        Some(edge)
    } else {
        None
    }
}

// Whether an edge of a constraint that is there has to be met: it is an always-edge, or no cause of the constraint leaves room on its side.
fn is_binding(net: &Network, times: &[i64], name: EdgeName) -> bool
    requires net { IsNet net.now }
    requires there { name.constraint < length net.now.constraints }
    requires count { length times.now ≡ net.now.events }
    requires times { All IsTime times.now }
    ensures { IsTrue result ↔ IsBinding net.now times.now name }
{
    net.is_always(name) || leaves_no_room(net, times, name)
}

// Whether no cause of a constraint that is there leaves room on the side of an edge.
fn leaves_no_room(net: &Network, times: &[i64], name: EdgeName) -> bool
    requires net { IsNet net.now }
    requires there { name.constraint < length net.now.constraints }
    requires count { length times.now ≡ net.now.events }
    requires times { All IsTime times.now }
    ensures { IsTrue result ↔ LeavesNoRoom net.now times.now name }
{
    // A linear constraint names no cause, and has its from-event as cause 0.
    for cause in 0..net.cause_count(name.constraint).max(1) {
        if has_room(net, times, EdgeName { cause, ..name }) {
            return false;
        }
    }
    true
}

// Whether the end of a name's edge is open, or the times are not yet at it.
fn has_room(net: &Network, times: &[i64], name: EdgeName) -> bool
    requires count { length times.now ≡ net.now.events }
    requires times { All IsTime times.now }
    ensures room { IsTrue result → IsSomeAnd (edge net.now name) (λ e. e.weight ≤ℤ separation times.now e.from e.to) → ⊥ }
    ensures none { result ≡ false → IsSomeAnd (edge net.now name) (λ e. e.weight ≤ℤ separation times.now e.from e.to) }
{
    match net.edge(name) {
        None => true,
        Some(edge) => separation(times, edge.from, edge.to) < edge.weight,
    }
}
