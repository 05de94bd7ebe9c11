//! Walks of edges, read from the parents of labels.

ghost use Rattle.std.specs.Prelude.{◌≡◌, ◌+◌, ◌*◌, ◌<◌, ◌≤◌, [], ◌∷◌, ◌++◌, List, length, reverse, take};
ghost use Rattle.itv_base.specs.declared.limits.TheConstants.{MAX_EVENTS};
ghost use Rattle.itv_base.specs.declared.names.EdgeName.{EdgeName};
ghost use Rattle.diff_bounds.specs.Labels.{Parents, parents_from};
ghost use Rattle.diff_bounds.specs.Step.Walking.{HasLoop, IsOneClimb};

use crate::arc::Arc;
use event_graph::Network;
use itv_base::{EdgeName, EventId};
use trail::Trail;

/// Writes down the loop that an edge closes, with this edge last. The answer is how many edges the loop has.
pub fn loop_into(net: &Network, trail: &Trail, arc: Arc, walk: &mut [EdgeName]) -> usize
    requires slots { net.now.events + net.now.events ≤ length trail.now.current.stamps }
    requires most { length trail.now.current.stamps ≤ 2 * MAX_EVENTS }
    requires loops { HasLoop net.now trail.now arc }
    requires room { net.now.events ≤ length walk.old }
    ensures names { (h : HasLoop net.now trail.now arc) → take result walk.new ≡ reverse h.way ++ arc.name ∷ [] }
    ensures room { result ≤ length walk.new }
{
    let count = path_into(net, trail, net.events(), arc.edge.from, arc.edge.to, walk);
    walk[count] = arc.name;
    count + 1
}

/// Writes down the walk from the top of a climb to its start. The answer is how many edges the walk has.
pub fn path_into(
    net: &Network,
    trail: &Trail,
    base: u32,
    from: EventId,
    to: EventId,
    walk: &mut [EdgeName],
) -> usize
    requires from { from.0 < net.now.events }
    requires slots { base + net.now.events ≤ length trail.now.current.stamps }
    requires most { length trail.now.current.stamps ≤ 2 * MAX_EVENTS }
    requires climb { (parent : Parents) × (names : List EdgeName) × IsOneClimb net.now (parents_from trail.now.current.stamps base) parent from.0 names to.0
        × (length names < length walk.old) }
    ensures names { (parent : Parents) (names : List EdgeName) → IsOneClimb net.now (parents_from trail.now.current.stamps base) parent from.0 names to.0
        → take result walk.new ≡ reverse names }
    ensures room { result < length walk.new }
{
    let count = climb_into(net, trail, base, from, to, walk);
    walk[..count].reverse();
    count
}

// Writes down the edges of a climb, from its start to its top. The answer is how many edges it has.
fn climb_into(
    net: &Network,
    trail: &Trail,
    base: u32,
    from: EventId,
    to: EventId,
    walk: &mut [EdgeName],
) -> usize
    requires from { from.0 < net.now.events }
    requires slots { base + net.now.events ≤ length trail.now.current.stamps }
    requires most { length trail.now.current.stamps ≤ 2 * MAX_EVENTS }
    requires climb { (parent : Parents) × (names : List EdgeName) × IsOneClimb net.now (parents_from trail.now.current.stamps base) parent from.0 names to.0
        × (length names < length walk.old) }
    ensures names { (parent : Parents) (names : List EdgeName) → IsOneClimb net.now (parents_from trail.now.current.stamps base) parent from.0 names to.0
        → take result walk.new ≡ names }
    ensures room { result < length walk.new }
{
    let mut at = from;
    let mut count = 0;
    while at != to {
        let Some(name) = trail.stamp(base + at.0).parent else {
            unreachable!()
        };
        let Some(edge) = net.edge(name) else {
            unreachable!()
        };
        walk[count] = name;
        count += 1;
        at = edge.from;
    }
    count
}
