//! Times from which a search by cases can start.

ghost use Rattle.std.specs.Prelude.{◌≡◌, ◌<◌, ◌≤◌, All, IfSome, IsTrue, length};
ghost use Rattle.itv_base.specs.declared.limits.TheConstants.{MAX_EVENTS as EVENT_LIMIT};
ghost use Rattle.event_graph.specs.Network.{IsNet, Net};
ghost use Rattle.event_graph.specs.Satisfying.{Satisfies};
ghost use Rattle.event_graph.specs.Times.{IsTime, moved};
ghost use Rattle.extremes.specs.Ready.{AreStart, IsStartTime};

use branch::MAX_START;
use event_graph::move_all;
use itv_base::EventId;

/// Satisfying times, moved so that the earliest one is 0. The answer is `None` if the latest one is past the greatest separation that a search may
/// start from. The times are in picoseconds, each below 2^61 in absolute value.
pub fn start_of(times: Vec<i64>) -> Option<Vec<i64>>
    requires some { 0 < length times.items }
    requires few { length times.items ≤ EVENT_LIMIT }
    requires times { All IsTime times.items }
    ensures start { (net : Net) → IsNet net → Satisfies times.items net → IfSome result (λ start. AreStart net start.items) }
{
    let origin = earliest(&times);
    let start = moved(times, origin);
    if !are_start(&start) {
        drop(start);
        return None;
    }
    Some(start)
}

// All times less the time of an event.
fn moved(mut times: Vec<i64>, origin: EventId) -> Vec<i64>
    requires event { origin.0 < length times.items }
    requires times { All IsTime times.items }
    ensures moved { result.items ≡ moved origin times.items }
{
    move_all(&mut times, origin);
    times
}

// An event with the least time.
fn earliest(times: &[i64]) -> EventId
    requires some { 0 < length times.now }
    requires few { length times.now ≤ EVENT_LIMIT }
    ensures there { result.0 < length times.now }
{
    let mut first = 0;
    for event in 0..times.len() {
        if times[event] < times[first] {
            first = event;
        }
    }
    EventId(first as u32)
}

// Whether all times are from 0 to the greatest separation that a search may start from.
fn are_start(times: &[i64]) -> bool
    ensures { IsTrue result → All IsStartTime times.now }
{
    times.iter().all(|time| is_start(*time))
}

// Whether a time is from 0 to the greatest separation that a search may start from.
fn is_start(time: i64) -> bool
    ensures { IsTrue result → IsStartTime time }
{
    0 <= time && time <= MAX_START
}
