//! The bounds of a search. They have a level for each choice of its case.

ghost use Rattle.std.specs.Prelude.{◌≡◌, ◌<◌, ◌≤◌, ◌≤ℤ◌, ℕ, ℤ, List, ◌∷◌, [], IfSome, MatchOption, Some, None, length};
ghost use Rattle.itv_base.specs.declared.names.EventId.{EventId};
ghost use Rattle.event_graph.specs.Limits.{IsReach};
ghost use Rattle.event_graph.specs.Network.{IsNet};
ghost use Rattle.event_graph.specs.Proof.{Bound, Case, ClosesByLoop, ClosesByPath};
ghost use Rattle.event_graph.specs.RootBound.{HasNoRoot};
ghost use Rattle.diff_bounds.specs.Standing.{IsMadeFor};
ghost use Rattle.branch.specs.Step.Cases.{IsSearchCase};
ghost use Rattle.branch.specs.Step.Edges.{choice_name};
ghost use Rattle.branch.specs.Step.Standing.{AreOfSame, AreTimesIn, HasNoUpper, HasUpper, IsRayIn, IsUpperIn, StandsBelow, StandsOn};

use crate::search::Search;
use diff_bounds::{Bounds, Fit};
use event_graph::{Choice, Network};
use itv_base::{EdgeName, EventId, RuleKind, Side};

/// Begins a search at the case without choices, with bounds from `source` if there is one. Returns `Loop` if the always-edges allow
/// no times; the bounds then stand on no case.
pub fn start(net: &Network, search: &mut Search, source: Option<EventId>, budget: u64) -> Fit
    requires made { IsMadeFor net.now search.old.bounds }
    requires source { IfSome source (λ s. s.0 < net.now.events) }
    ensures fits { result ≡ Fit.Fits → StandsOn net.now [] search.new.bounds }
    ensures none { result ≡ Fit.Loop → HasNoRoot net.now }
    ensures walk { result ≡ Fit.Loop → ClosesByLoop net.now [] search.new.bounds.walk }
    ensures source { search.new.bounds.source ≡ source }
    ensures made { IsMadeFor net.now search.new.bounds }
    ensures others { search.new ≡ record {
      bounds = search.new.bounds;
      cases = record { room = search.old.cases.room; chosen = [] };
      leaves = 0;
      budget = budget;
    } }
{
    search.cases.clear();
    search.leaves = 0;
    search.budget = budget;
    search.bounds.start(net, source)
}

/// Adds the edge of the latest choice to the bounds. If the edges then allow no times, returns `Loop`, and the bounds stay on the
/// other choices.
pub fn enter_choice(net: &Network, search: &mut Search, choice: Choice) -> Fit
    requires case { IsSearchCase net.now search.old.cases.chosen }
    requires below { StandsBelow net.now search.old.cases.chosen search.old.bounds }
    requires latest { (below : Case) × (search.old.cases.chosen ≡ choice ∷ below) }
    ensures fits { result ≡ Fit.Fits → StandsOn net.now search.old.cases.chosen search.new.bounds }
    ensures stays { result ≡ Fit.Loop → StandsBelow net.now search.old.cases.chosen search.new.bounds }
    ensures walk { result ≡ Fit.Loop → ClosesByLoop net.now search.old.cases.chosen search.new.bounds.walk }
    ensures bounds { AreOfSame net.now search.old.bounds search.new.bounds }
    ensures others { search.new ≡ record search.old { bounds = search.new.bounds } }
{
    search.bounds.descend(net, name_of(net, choice))
}

/// Takes the latest choice of the case at hand out of the bounds, if there is one.
pub fn step_back(net: &Network, search: &mut Search)
    requires stands { StandsOn net.now search.old.cases.chosen search.old.bounds }
    ensures below { StandsBelow net.now search.old.cases.chosen search.new.bounds }
    ensures bounds { AreOfSame net.now search.old.bounds search.new.bounds }
    ensures others { search.new ≡ record search.old { bounds = search.new.bounds } }
{
    if !search.cases.is_empty() {
        search.bounds.retreat();
    }
}

/// The greatest separation of an event from the source in the case at hand, or none where it is unbounded.
pub fn upper_in(net: &Network, search: &Search, to: EventId) -> Option<i64>
    requires source { (from : EventId) × (search.now.bounds.source ≡ Some from) }
    requires stands { StandsOn net.now search.now.cases.chosen search.now.bounds }
    requires case { IsSearchCase net.now search.now.cases.chosen }
    requires to { to.0 < net.now.events }
    ensures within { IfSome result IsReach }
    ensures value { MatchOption result (HasNoUpper search.now.bounds to) (HasUpper search.now.bounds to) }
    ensures upper { (from : EventId) → search.now.bounds.source ≡ Some from
        → IsUpperIn net.now search.now.cases.chosen from to result }
{
    search.bounds.upper(to)
}

/// Writes times in picoseconds, one per event. They meet the edges of the case at hand, and attain each greatest separation from
/// the source that is a number.
pub fn times_in(net: &Network, search: &Search, out: &mut [i64])
    requires stands { StandsOn net.now search.now.cases.chosen search.now.bounds }
    requires case { IsSearchCase net.now search.now.cases.chosen }
    requires count { length out.old ≡ net.now.events }
    ensures { AreTimesIn net.now search.now.cases.chosen search.now.bounds out.new }
{
    search.bounds.times_into(out)
}

/// Writes times like [`times_in`], and a flag for each event whose separation from the source is unbounded. The flagged events can
/// be raised from the times.
pub fn ray_in(
    net: &Network,
    search: &Search,
    from: EventId,
    to: EventId,
    out: &mut [i64],
    ray: &mut [bool],
)
    requires source { search.now.bounds.source ≡ Some from }
    requires from { from.0 < net.now.events }
    requires to { to.0 < net.now.events }
    requires none { HasNoUpper search.now.bounds to }
    requires stands { StandsOn net.now search.now.cases.chosen search.now.bounds }
    requires case { IsSearchCase net.now search.now.cases.chosen }
    requires count { length out.old ≡ net.now.events }
    requires places { length ray.old ≡ net.now.events }
    ensures { IsRayIn net.now search.now.cases.chosen from to out.new ray.new }
{
    // The source is never raised: its separation from itself is 0.
    prove!(search.bounds.upper(from).is_some());
    search.bounds.times_into(out);
    search.bounds.ray_into(ray);
}

/// Finds a path from the source to an event, over the edges of the case at hand. Its sum is the greatest separation.
pub fn find_path(net: &Network, search: &mut Search, to: EventId)
    requires stands { StandsOn net.now search.old.cases.chosen search.old.bounds }
    requires case { IsSearchCase net.now search.old.cases.chosen }
    requires source { (from : EventId) × (search.old.bounds.source ≡ Some from) }
    requires value { (value : ℤ) × HasUpper search.old.bounds to value }
    requires to { to.0 < net.now.events }
    ensures path { (from : EventId) (value best : ℤ) → search.old.bounds.source ≡ Some from
        → HasUpper search.old.bounds to value → value ≤ℤ best
        → ClosesByPath net.now (Bound from to best) search.old.cases.chosen search.new.bounds.walk }
    ensures stands { StandsOn net.now search.old.cases.chosen search.new.bounds }
    ensures bounds { AreOfSame net.now search.old.bounds search.new.bounds }
    ensures others { search.new ≡ record search.old { bounds = search.new.bounds } }
{
    search.bounds.find_path(net, to)
}

/// The edge of a choice, on the choice side of its constraint.
pub fn name_of(net: &Network, choice: Choice) -> EdgeName
    requires { choice.constraint < length net.now.constraints }
    ensures { result ≡ choice_name net.now choice }
{
    let side = match net.kind(choice.constraint) {
        RuleKind::Lin | RuleKind::Late => Side::Upper,
        RuleKind::Early => Side::Lower,
    };
    EdgeName {
        constraint: choice.constraint,
        cause: choice.cause,
        side,
    }
}
