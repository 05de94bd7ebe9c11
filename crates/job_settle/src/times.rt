//! Lists of times.

ghost use Rattle.std.specs.Prelude.{◌≡◌, ◌<◌, All, length};
ghost use Rattle.event_graph.specs.Times.{IsTime, moved};

use event_graph::move_all;
use itv_base::EventId;

/// All times less the time of an event. The event is there, and all times are below 2^61 picoseconds in absolute value.
pub fn moved(mut times: Vec<i64>, origin: EventId) -> Vec<i64>
    requires event { origin.0 < length times.items }
    requires times { All IsTime times.items }
    ensures moved { result.items ≡ moved origin times.items }
{
    move_all(&mut times, origin);
    times
}
