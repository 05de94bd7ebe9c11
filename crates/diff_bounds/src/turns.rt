//! Turns in which times fall over the edges of all events.
//!
//! No proof says how far the times fall. So contracts of these functions say that there is a time for each event, and nothing of the times.

ghost use Rattle.std.specs.Prelude.{◌≡◌, ◌<◌, All, length};
ghost use Rattle.diff_bounds.specs.Arcs.{AreAlwaysArcs};
ghost use Rattle.diff_bounds.specs.Step.Guessing.{AreEvents, IsBetween};

use crate::arc::Arc;
use event_graph::{ByEvent, Network};
use itv_base::EventId;

// How often the edges of all events are followed, there and back, at most.
const TURNS: u32 = 32;

// No time falls below this. Where times meet all edges, none comes near it: a path that meets no event twice is shorter.
const FLOOR: i64 = -(1 << 60);

/// Lets times fall from 0 over the edges of all events, there and back along an order, until no time falls or all turns are used. `waits` is room for
/// one flag for each event: whether its time has fallen since its edges were followed.
pub fn fall_in_turns(
    net: &Network,
    out: &ByEvent<Arc>,
    order: &[EventId],
    times: &mut [i64],
    waits: &mut [bool],
)
    requires out { AreAlwaysArcs net.now out.now }
    requires order { AreEvents net.now.events order.now }
    requires times { length times.old ≡ net.now.events }
    requires waits { length waits.old ≡ net.now.events }
    ensures times { length times.new ≡ length times.old }
    ensures waits { length waits.new ≡ length waits.old }
{
    times.fill(0);
    waits.fill(true);
    for _turn in 0..TURNS {
        if !fall_there_and_back(net, out, order, times, waits) {
            return;
        }
    }
}

// Lets times fall over the edges of the events that wait, there and back along an order. The answer is whether a time has fallen.
fn fall_there_and_back(
    net: &Network,
    out: &ByEvent<Arc>,
    order: &[EventId],
    times: &mut [i64],
    waits: &mut [bool],
) -> bool
    requires out { AreAlwaysArcs net.now out.now }
    requires order { AreEvents net.now.events order.now }
    requires times { length times.old ≡ net.now.events }
    requires waits { length waits.old ≡ net.now.events }
    ensures times { length times.new ≡ length times.old }
    ensures waits { length waits.new ≡ length waits.old }
{
    let mut has_fallen = false;
    for event in order {
        if fall_if_waiting(*event, out.of(*event), times, waits) {
            has_fallen = true;
        }
    }
    for behind in 0..order.len() {
        let event = order[order.len() - 1 - behind];
        if fall_if_waiting(event, out.of(event), times, waits) {
            has_fallen = true;
        }
    }
    has_fallen
}

// Lets times fall over the edges that start at an event, if it waits. The answer is whether a time has fallen.
fn fall_if_waiting(from: EventId, arcs: &[Arc], times: &mut [i64], waits: &mut [bool]) -> bool
    requires from { from.0 < length times.old }
    requires arcs { All (IsBetween (length times.old)) arcs.now }
    requires waits { length waits.old ≡ length times.old }
    ensures times { length times.new ≡ length times.old }
    ensures waits { length waits.new ≡ length waits.old }
{
    if !waits[from.0 as usize] {
        return false;
    }
    waits[from.0 as usize] = false;
    let mut has_fallen = false;
    for arc in arcs {
        if fall_over_edge(arc, times) {
            waits[arc.edge.to.0 as usize] = true;
            has_fallen = true;
        }
    }
    has_fallen
}

// Lets the time at the end of an edge fall, where the edge asks for it. The answer is whether the time has fallen.
fn fall_over_edge(arc: &Arc, times: &mut [i64]) -> bool
    requires { IsBetween (length times.old) arc.now }
    ensures { length times.new ≡ length times.old }
{
    let sum = times[arc.edge.from.0 as usize].saturating_add(arc.edge.weight);
    let time = sum.max(FLOOR);
    let to = arc.edge.to.0 as usize;
    if times[to] <= time {
        return false;
    }
    times[to] = time;
    true
}
