//! What is found of an end along one edge.

ghost use Rattle.std.specs.Prelude.{◌≡◌, false, ◌<◌, ◌≤◌, ◌≤ℤ◌, ◌+◌, ◌⊎◌, IfOk, IfSome, OnOk, Some};
ghost use Rattle.event_graph.specs.Edges.{cause_choices};
ghost use Rattle.requirements.specs.Separations.{is_open};
ghost use Rattle.extremes.specs.Found.{IsGreatestFound};
ghost use Rattle.extremes.specs.Ready.{IsReady};
ghost use Rattle.narrow_ends.specs.Narrow.{IsEndSettled};
ghost use Rattle.narrow_ends.specs.Step.{AreFoundTimes, IsSearched};
ghost use Rattle.event_graph.specs.Bounds.{IsGreatest};
ghost use Rattle.event_graph.specs.Network.{Net};
ghost use Rattle.event_graph.specs.declared.edge.Edge.{Edge as EdgeSeen};

use crate::end::EndFound;
use crate::end_searches::EndSearches;
use crate::found_times::FoundTimes;
use event_graph::{Edge, Network};
use extremes::{Extremes, Greatest};
use itv_base::NoMemory;
use requirements::Separation;
use std::alloc::Global;

/// Looks whether satisfying times attain an end with a weight along an edge, where some separation, or none, is the greatest so far. It searches for the
/// greatest separation only where no times that an earlier search found attain the end. The end is open where no searches are left or the search leaves it
/// so.
pub fn search(
    alloc: Global,
    net: &Network,
    extremes: &mut Extremes,
    edge: Edge,
    weight: i64,
    so_far: Option<i64>,
    searches: &mut EndSearches,
) -> Result<EndFound, NoMemory>
    requires ready { IsReady net.now extremes.old }
    requires from { edge.from.0 < net.now.events }
    requires to { edge.to.0 < net.now.events }
    requires kept { AreFoundTimes net.now searches.old.found }
    ensures ready { IsReady net.now extremes.new }
    ensures budget { extremes.new.budget ≡ extremes.old.budget }
    ensures kept { OnOk result (AreFoundTimes net.now searches.new.found) }
    ensures found { IfOk result (IsSearched net.now edge weight so_far) }
    ensures settles { IfOk result (λ found. cause_choices net.now.constraints ≤ extremes.old.budget → 1 ≤ searches.old.left → IsEndSettled found) }
    ensures left { searches.old.left ≤ searches.new.left + 1 }
{
    if searches.found.attain(Edge { weight, ..edge }) {
        return Ok(EndFound::Wide);
    }
    search_anew(alloc, net, extremes, edge, weight, so_far, searches)
}

// EndSearches for the greatest separation along an edge of an end, and keeps the times that attain it.
fn search_anew(
    alloc: Global,
    net: &Network,
    extremes: &mut Extremes,
    edge: Edge,
    weight: i64,
    so_far: Option<i64>,
    searches: &mut EndSearches,
) -> Result<EndFound, NoMemory>
    requires ready { IsReady net.now extremes.old }
    requires from { edge.from.0 < net.now.events }
    requires to { edge.to.0 < net.now.events }
    requires kept { AreFoundTimes net.now searches.old.found }
    ensures ready { IsReady net.now extremes.new }
    ensures budget { extremes.new.budget ≡ extremes.old.budget }
    ensures kept { OnOk result (AreFoundTimes net.now searches.new.found) }
    ensures found { IfOk result (IsSearched net.now edge weight so_far) }
    ensures settles { IfOk result (λ found. cause_choices net.now.constraints ≤ extremes.old.budget → 1 ≤ searches.old.left → IsEndSettled found) }
    ensures left { searches.old.left ≤ searches.new.left + 1 }
{
    if searches.left == 0 {
        return Ok(EndFound::Open);
    }
    searches.left -= 1;
    let greatest = extremes.greatest(alloc, net, edge.from, edge.to)?;
    let found = found_of(&greatest, weight, so_far);
    keep_times(greatest, &mut searches.found)?;
    Ok(found)
}

// Keeps the times that a search found, if it found some.
fn keep_times(greatest: Greatest, found: &mut FoundTimes) -> Result<(), NoMemory>
    ensures kept { OnOk result ((net : Net) (e : EdgeSeen) → IsGreatestFound net e.from e.to greatest → AreFoundTimes net found.old → AreFoundTimes net found.new) }
{
    match greatest {
        Separation::Closed { shown, .. } => found.keep(shown),
        Separation::Unbounded { .. } | Separation::Open { .. } => Ok(()),
    }
}

// What is found of an end with a weight, according to what is found of a greatest separation and the greatest one so far.
fn found_of(greatest: &Greatest, weight: i64, so_far: Option<i64>) -> EndFound
    ensures found { (net : Net) (e : EdgeSeen) → IsGreatestFound net e.from e.to greatest.now → IsSearched net e weight so_far result }
    ensures settled { is_open greatest.now ≡ false → IsEndSettled result }
{
    match greatest {
        Separation::Closed { value, .. } => found_by(*value, weight, so_far),
        Separation::Unbounded { .. } => EndFound::Wide,
        Separation::Open { .. } => EndFound::Open,
    }
}

// What is found of an end with a weight, given a greatest separation and the greatest one so far.
fn found_by(value: i64, weight: i64, so_far: Option<i64>) -> EndFound
    ensures found { (net : Net) (e : EdgeSeen) → IsGreatest net e.from e.to value → IsSearched net e weight so_far result }
    ensures settled { IsEndSettled result }
{
    if weight <= value {
        EndFound::Wide
    } else {
        narrow_at(most_of(value, so_far))
    }
}

// A narrow end, to which satisfying times come this near.
fn narrow_at(only: i64) -> EndFound
    ensures { result ≡ EndFound.Narrow only }
{
    EndFound::Narrow(only)
}

// The greater one of a separation and the greatest one so far.
fn most_of(value: i64, so_far: Option<i64>) -> i64
    ensures least { value ≤ℤ result }
    ensures before { IfSome so_far (λ z. z ≤ℤ result) }
    ensures one { (so_far ≡ Some result) ⊎ (result ≡ value) }
{
    match so_far {
        Some(other) if value < other => other,
        _ => value,
    }
}
