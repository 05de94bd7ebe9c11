//! The order in which a guess follows the edges of events.
//!
//! Only the time that a guess takes rests on the order. So contracts of these functions say that events of the network are in it, and not where.

ghost use Rattle.std.specs.Prelude.{◌≡◌, ◌<◌, ◌≤◌, All, length};
ghost use Rattle.diff_bounds.specs.Arcs.{AreAlwaysArcs};
ghost use Rattle.diff_bounds.specs.Step.Guessing.{AreEvents, IsBetween};

use crate::arc::Arc;
use event_graph::{ByEvent, Network};
use itv_base::EventId;

/// Orders all events so that each edge of negative weight leads from an earlier event to a later one. Where edges of negative weight alone lead back to
/// where they began, no order does this. Then the events that these edges lead to come last, by their numbers. `due` is room for one number for each
/// event.
pub fn sort(net: &Network, out: &ByEvent<Arc>, order: &mut [EventId], due: &mut [u32])
    requires out { AreAlwaysArcs net.now out.now }
    requires due { length due.old ≡ net.now.events }
    requires order { AreEvents net.now.events order.old }
    ensures due { length due.new ≡ net.now.events }
    ensures order { AreEvents net.now.events order.new }
{
    count_due(net, out, due);
    let mut count = place_first(net, due, order);
    let mut next = 0;
    while next < count {
        let event = order[next];
        count = release(out.of(event), order, count, due);
        next += 1;
    }
    place_last(net, due, order, count);
}

// Counts for each event the edges of negative weight that lead there.
fn count_due(net: &Network, out: &ByEvent<Arc>, due: &mut [u32])
    requires out { AreAlwaysArcs net.now out.now }
    requires due { length due.old ≡ net.now.events }
    ensures { length due.new ≡ net.now.events }
{
    due.fill(0);
    for event in 0..net.events() {
        add_due(out.of(EventId(event)), due);
    }
}

// Counts the edges of negative weight among these edges, each at the event where it leads.
fn add_due(arcs: &[Arc], due: &mut [u32])
    requires { All (IsBetween (length due.old)) arcs.now }
    ensures { length due.new ≡ length due.old }
{
    for arc in arcs {
        if arc.edge.weight < 0 {
            let to = arc.edge.to.0 as usize;
            due[to] = due[to].wrapping_add(1);
        }
    }
}

// Puts the events to which no edge of negative weight leads into the order. The answer is how many events are in the order.
fn place_first(net: &Network, due: &[u32], order: &mut [EventId]) -> usize
    requires due { length due.now ≡ net.now.events }
    requires order { AreEvents net.now.events order.old }
    ensures order { AreEvents net.now.events order.new }
    ensures count { result ≤ net.now.events }
{
    let mut count = 0;
    for event in 0..net.events() {
        if due[event as usize] == 0 {
            count = place(EventId(event), order, count);
        }
    }
    count
}

// Puts the events where edges are still due into the order, after `count` others.
fn place_last(net: &Network, due: &[u32], order: &mut [EventId], count: usize)
    requires due { length due.now ≡ net.now.events }
    requires order { AreEvents net.now.events order.old }
    requires count { count ≤ net.now.events }
    ensures { AreEvents net.now.events order.new }
{
    let mut placed = count;
    for event in 0..net.events() {
        if due[event as usize] > 0 {
            placed = place(EventId(event), order, placed);
        }
    }
}

// Puts an event into the order after `count` others, if there is room. The answer is how many events are in the order now.
fn place(event: EventId, order: &mut [EventId], count: usize) -> usize
    requires count { count ≤ length order.old }
    requires event { event.0 < length order.old }
    requires order { AreEvents (length order.old) order.old }
    ensures order { AreEvents (length order.old) order.new }
    ensures more { count ≤ result }
    ensures count { result ≤ length order.old }
{
    if count < order.len() {
        order[count] = event;
        count + 1
    } else {
        count
    }
}

// Follows the edges that start at an event of the order. Where one of negative weight leads to an event, and no other such edge is due there, this
// event comes into the order too. The answer is how many events are in the order now.
fn release(arcs: &[Arc], order: &mut [EventId], count: usize, due: &mut [u32]) -> usize
    requires count { count ≤ length order.old }
    requires due { length due.old ≡ length order.old }
    requires arcs { All (IsBetween (length order.old)) arcs.now }
    requires order { AreEvents (length order.old) order.old }
    ensures due { length due.new ≡ length due.old }
    ensures order { AreEvents (length order.old) order.new }
    ensures more { count ≤ result }
    ensures count { result ≤ length order.old }
{
    let mut placed = count;
    for arc in arcs {
        if arc.edge.weight < 0 && take_due(arc.edge.to, due) {
            placed = place(arc.edge.to, order, placed);
        }
    }
    placed
}

// Counts down the edges that are due at an event. The answer is whether none is left.
fn take_due(event: EventId, due: &mut [u32]) -> bool
    requires { event.0 < length due.old }
    ensures { length due.new ≡ length due.old }
{
    let left = due[event.0 as usize].wrapping_sub(1);
    due[event.0 as usize] = left;
    left == 0
}
