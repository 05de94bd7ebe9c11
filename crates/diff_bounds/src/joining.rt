//! Times of events that join one after another.
//!
//! No proof says how the times are found. So contracts of these functions say that there is a time for each event, and nothing of the times.

ghost use Rattle.std.specs.Prelude.{◌≡◌, ◌<◌, ◌≤◌, All, length};
ghost use Rattle.diff_bounds.specs.Arcs.{AreAlwaysArcs};
ghost use Rattle.diff_bounds.specs.Step.Guessing.{IsBetween};

use crate::arc::Arc;
use crate::pending::Pending;
use event_graph::{ByEvent, Network};
use itv_base::EventId;

// The time of an event that has not joined yet, and to which no edge leads from an event that has.
const LATE: i64 = i64::MAX;

/// Lets events join one after another, from the last one down to event `end`. The edges that start at an event count once it has joined, and times fall
/// until they meet all edges that count. If the edges of an event close a loop of negative sum, it does not join, and no event joins after it. The
/// answer is the number of the event that joined last, or the number of events if none did.
///
/// An event joins at the time of the draft if the edges to and from the other events allow it, or else at the nearest time that they allow. Only where
/// they allow no time at all do the times of other events fall.
pub fn join_down(
    net: &Network,
    out: &ByEvent<Arc>,
    end: u32,
    draft: &[i64],
    times: &mut [i64],
    pending: &mut Pending,
) -> u32
    requires out { AreAlwaysArcs net.now out.now }
    requires draft { length draft.now ≡ net.now.events }
    requires times { length times.old ≡ net.now.events }
    requires marks { length pending.old.marks ≡ net.now.events }
    ensures times { length times.new ≡ length times.old }
    ensures marks { length pending.new.marks ≡ length pending.old.marks }
    ensures first { result ≤ net.now.events }
{
    times.fill(LATE);
    let mut first = net.events();
    while end < first {
        let event = EventId(first - 1);
        times[event.0 as usize] = time_to_join(event, out.of(event), draft, times);
        if !make_way(net, out, event, times, pending) {
            return first;
        }
        first -= 1;
    }
    first
}

// The time of the draft for an event, or the nearest one that the edges to and from the events after it allow. Times have fallen over the edges that
// lead to the event. If no time is allowed, it is the latest one that these edges allow.
fn time_to_join(event: EventId, arcs: &[Arc], draft: &[i64], times: &[i64]) -> i64
    requires event { event.0 < length times.now }
    requires arcs { All (IsBetween (length times.now)) arcs.now }
    requires draft { length draft.now ≡ length times.now }
{
    let mut time = draft[event.0 as usize];
    for arc in arcs {
        if event.0 < arc.edge.to.0 {
            let earliest = times[arc.edge.to.0 as usize].saturating_sub(arc.edge.weight);
            time = time.max(earliest);
        }
    }
    time.min(times[event.0 as usize])
}

// Lets times fall from an event that joins. The event whose time has fallen furthest comes first, so no time falls again after its event was
// taken. The answer is whether no edge asks the time of the event that joins to fall.
fn make_way(
    net: &Network,
    out: &ByEvent<Arc>,
    joining: EventId,
    times: &mut [i64],
    pending: &mut Pending,
) -> bool
    requires out { AreAlwaysArcs net.now out.now }
    requires joining { joining.0 < net.now.events }
    requires times { length times.old ≡ net.now.events }
    requires marks { length pending.old.marks ≡ net.now.events }
    ensures times { length times.new ≡ length times.old }
    ensures marks { length pending.new.marks ≡ length pending.old.marks }
{
    pending.clear();
    pending.push(joining, 0);
    for _taken in 0..net.events() {
        let Some(event) = pending.pop() else {
            return true;
        };
        if !lower_ends(out.of(event), joining, times, pending) {
            return false;
        }
    }
    pending.pop().is_none()
}

// Lets the times at the ends of edges fall where the edges ask for it. The events there wait from then on, if they have joined. The answer is whether
// no edge asks the time of the event that joins to fall.
fn lower_ends(arcs: &[Arc], joining: EventId, times: &mut [i64], pending: &mut Pending) -> bool
    requires arcs { All (IsBetween (length times.old)) arcs.now }
    requires marks { length pending.old.marks ≡ length times.old }
    ensures times { length times.new ≡ length times.old }
    ensures marks { length pending.new.marks ≡ length pending.old.marks }
{
    for arc in arcs {
        let to = arc.edge.to;
        let time = times[arc.edge.from.0 as usize].saturating_add(arc.edge.weight);
        let was = times[to.0 as usize];
        if time < was {
            if to == joining {
                return false;
            }
            times[to.0 as usize] = time;
            if joining.0 < to.0 {
                pending.push(to, time.wrapping_sub(was));
            }
        }
    }
    true
}
