//! What the values of a derivation say, by the laws of derivations alone.

ghost use Rattle.std.specs.Prelude.{◌<◌, ◌<ℤ◌, ◌≤ℤ◌, ℤ, pos, List, IsTrue};
ghost use Rattle.event_graph.specs.Bounds.{IsInconsistent};
ghost use Rattle.event_graph.specs.Satisfying.{Satisfies};
ghost use Rattle.event_graph.specs.Times.{separation};
ghost use Rattle.falling.specs.Cap.{far_line};
ghost use Rattle.falling.specs.Checking.{IsBegun};

use event_graph::Network;
use falling::FallChecker;
use falling::laws::{derivation_bounds, ended_is_inconsistent};
use itv_base::EventId;

/// What the lines that a checker has taken show: a value, and whether no times satisfy. If the value is below the far
/// line, it bounds every satisfying separation from the source to `to`, in picoseconds.
pub fn bound_of(net: &Network, checker: &FallChecker, to: EventId) -> (i64, bool)
    requires begun { IsBegun net.now checker.now }
    requires to { to.0 < net.now.events }
    ensures bounds { result.0 <ℤ pos (far_line net.now) → (times : List ℤ) → Satisfies times net.now
        → separation times checker.now.source to ≤ℤ result.0 }
    ensures none { IsTrue result.1 → IsInconsistent net.now }
{
    net.is_whole();
    derivation_bounds();
    ended_is_inconsistent();
    (checker.value(to), checker.is_ended())
}
