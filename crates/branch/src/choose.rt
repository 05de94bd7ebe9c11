//! Choosing the constraint on which a case is split.

ghost use Rattle.std.specs.Prelude.{◌≡◌, ◌⊎◌, MatchOption, All};
ghost use Rattle.event_graph.specs.Network.{IsNet};
ghost use Rattle.event_graph.specs.RootBound.{MeetsAlways};
ghost use Rattle.event_graph.specs.Satisfying.{Breaks, IsFirstBroken, Satisfies};
ghost use Rattle.event_graph.specs.Times.{IsTime};
ghost use Rattle.branch.specs.Splits.{AreSplits};
ghost use Rattle.branch.specs.Step.Cases.{IsFree};

use crate::distances::{Distances, SearchTarget};
use event_graph::{Decisions, Network};
use itv_base::EventId;

/// Among the constraints that the times break, the one nearest to an event, or `None` if and only if the times satisfy the network.
/// Ties go to the least number. If the search reaches none of them, it is the one with the least number. The times meet all
/// always-edges, and so each constraint with one cause.
pub fn nearest_broken(
    net: &Network,
    times: &[i64],
    cases: &Decisions,
    to: EventId,
    distances: &mut Distances,
) -> Option<u32>
    requires net { IsNet net.now }
    requires splits { AreSplits net.now distances.old }
    requires always { MeetsAlways times.now net.now }
    requires times { All IsTime times.now }
    ensures same { distances.new ≡ distances.old }
    ensures broken { MatchOption result (Satisfies times.now net.now) (λ number. Breaks times.now net.now number) }
{
    match distances.nearest(SearchTarget::Broken(times), cases, to) {
        Some(nearest) => Some(nearest),
        None => first_broken(net, times, distances),
    }
}

/// The first constraint that the times break, or `None` if and only if they satisfy the network. The times meet all always-edges.
pub fn first_broken(net: &Network, times: &[i64], distances: &Distances) -> Option<u32>
    requires net { IsNet net.now }
    requires splits { AreSplits net.now distances.now }
    requires always { MeetsAlways times.now net.now }
    requires times { All IsTime times.now }
    ensures { MatchOption result (Satisfies times.now net.now) (IsFirstBroken times.now net.now 0) }
{
    distances.first_broken(times)
}

/// Among the constraints that can be split, the one nearest to an event; ties go to the least number. If the search reaches none,
/// it is `first`, which the times break.
pub fn nearest_open(
    net: &Network,
    times: &[i64],
    first: u32,
    cases: &Decisions,
    to: EventId,
    distances: &mut Distances,
) -> u32
    requires splits { AreSplits net.now distances.old }
    requires first { Breaks times.now net.now first }
    ensures same { distances.new ≡ distances.old }
    ensures open { Breaks times.now net.now result ⊎ IsFree net.now cases.now.chosen result }
{
    distances
        .nearest(SearchTarget::Open, cases, to)
        .unwrap_or(first)
}
