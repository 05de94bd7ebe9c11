//! Rays, which show that a pair is unbounded.

ghost use Rattle.std.specs.Prelude.{◌≡◌, ◌<◌, ◌↔◌, IsTrue, All, length};
ghost use Rattle.event_graph.specs.Bounds.{IsRay};
ghost use Rattle.event_graph.specs.Times.{IsTime};

use event_graph::Network;
use itv_base::EventId;

/// Whether times and a set of events show that a pair of events of the network is unbounded. The set holds `to` and not
/// `from`. The times satisfy the network however far the events of the set are raised. There are a time, below 2^61
/// picoseconds in absolute value, and a flag for each event.
pub fn check_ray(net: &Network, times: &[i64], ray: &[bool], from: EventId, to: EventId) -> bool
    requires count { length times.now ≡ net.now.events }
    requires ray { length ray.now ≡ net.now.events }
    requires times { All IsTime times.now }
    requires from { from.0 < net.now.events }
    requires to { to.0 < net.now.events }
    ensures ray { IsTrue result ↔ IsRay net.now from to times.now ray.now }
{
    net.is_ray(times, ray, from, to)
}
