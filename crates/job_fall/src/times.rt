//! Lists of times.

ghost use Rattle.std.specs.Prelude.{◌≡◌, ◌<◌, All, length};
ghost use Rattle.event_graph.specs.Times.{moved};
ghost use Rattle.falling.specs.Cap.{IsNearValue};

use event_graph::move_all;
use itv_base::EventId;

/// Copies the times to `out`, less the time of an event. All times are in picoseconds and within the greatest cap
/// in absolute value. The event must be there.
pub fn take_moved(out: &mut [i64], times: &[i64], origin: EventId)
    requires count { length out.old ≡ length times.now }
    requires event { origin.0 < length times.now }
    requires near { All IsNearValue times.now }
    ensures taken { out.new ≡ moved origin times.now }
{
    out.copy_from_slice(times);
    move_all(out, origin);
}
