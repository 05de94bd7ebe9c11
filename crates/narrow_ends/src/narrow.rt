//! Which ends of drawn ranges no times attain.

ghost use Rattle.std.specs.Prelude.{◌≡◌, ◌<◌, ◌≤◌, ◌+◌, ◌++◌, ◌∷◌, [], List, All, IfOk, None, OnOk, length, map};
ghost use Rattle.event_graph.specs.Edges.{cause_choices};
ghost use Rattle.extremes.specs.Ready.{IsReady};
ghost use Rattle.narrow_ends.specs.Ends.{all_ends, ends_of};
ghost use Rattle.narrow_ends.specs.Narrow.{IsEndFound, IsEndSettled};
ghost use Rattle.narrow_ends.specs.Step.{AreEndPlaces, AreEndsSettled, AreFoundTimes, HasEnd, IsLookedOn, IsSearched, Stand};
ghost use Rattle.narrow_ends.specs.declared.end.RangeEnd.{RangeEnd as EndSeen};
ghost use Rattle.itv_base.specs.declared.names.EdgeName.{EdgeName as NameOfEdge};

use crate::end::{EndFound, RangeEnd};
use crate::end_searches::EndSearches;
use crate::ends::{all_ends, edge_of};
use crate::found_times::FoundTimes;
use crate::search::search;
use crate::source::{EndPlaces, place_of, put_place, source_of};
use drawn_networks::DrawnNetwork;
use event_graph::{Edge, Network};
use extremes::Extremes;
use itv_base::{EdgeName, NoMemory};
use std::alloc::Global;

/// How many greatest separations are searched for at most. Each further end is left open.
pub const MOST_SEARCHES: u64 = 4_096;

/// Finds for each end of a drawn range whether satisfying times attain it, once for all cycles and places that the same thing draws: an edge of a
/// sheet, a pin of a net or a wire. The network was found consistent. An end is searched from its first place on, until it is attained. If times that an
/// earlier search found attain it, no search is made. No end is left open if the budget is no less than the number of cause choices and all ends of all
/// cycles are no more than [`MOST_SEARCHES`]. The answer is `NoMemory` if memory runs out.
pub fn find_narrow(
    alloc: Global,
    drawn: &DrawnNetwork,
    extremes: &mut Extremes,
) -> Result<Vec<RangeEnd>, NoMemory>
    requires ready { IsReady drawn.now.net extremes.old }
    ensures ready { IsReady drawn.now.net extremes.new }
    ensures budget { extremes.new.budget ≡ extremes.old.budget }
    ensures ends { IfOk result (λ ends. map (λ (end : EndSeen). end.name) ends.items ≡ ends_of drawn.now) }
    ensures right { IfOk result (λ ends. All (IsEndFound drawn.now) ends.items) }
    ensures settles { IfOk result (λ ends. cause_choices drawn.now.net.constraints ≤ extremes.old.budget → length (all_ends drawn.now) ≤ MOST_SEARCHES
        → All (λ (end : EndSeen). IsEndSettled end.found) ends.items) }
{
    let names = all_ends(alloc, drawn)?;
    let mut places = EndPlaces::new(alloc);
    let mut ends = Vec::new(alloc);
    let mut searches = EndSearches {
        left: MOST_SEARCHES,
        found: FoundTimes::new(alloc),
    };
    for name in names.as_slice() {
        add_end(
            alloc,
            drawn,
            extremes,
            *name,
            &mut places,
            &mut ends,
            &mut searches,
        )?;
    }
    Ok(ends)
}

// Looks at one end more: at one that the same thing draws as an end before, or at the first end of a thing.
fn add_end<'a>(
    alloc: Global,
    drawn: &'a DrawnNetwork,
    extremes: &mut Extremes,
    name: EdgeName,
    places: &mut EndPlaces<'a>,
    ends: &mut Vec<RangeEnd>,
    searches: &mut EndSearches,
) -> Result<(), NoMemory>
    requires ready { IsReady drawn.now.net extremes.old }
    requires there { HasEnd drawn.now name }
    requires places { AreEndPlaces places.old (length ends.old.items) }
    requires kept { AreFoundTimes drawn.now.net searches.old.found }
    ensures ready { IsReady drawn.now.net extremes.new }
    ensures budget { extremes.new.budget ≡ extremes.old.budget }
    ensures kept { OnOk result (AreFoundTimes drawn.now.net searches.new.found) }
    ensures stand { OnOk result ((names : List NameOfEdge) → Stand drawn.now names places.old ends.old.items
        → Stand drawn.now (names ++ name ∷ []) places.new ends.new.items) }
    ensures settles { OnOk result (cause_choices drawn.now.net.constraints ≤ extremes.old.budget → 1 ≤ searches.old.left → AreEndsSettled ends.old.items
        → AreEndsSettled ends.new.items) }
    ensures left { searches.old.left ≤ searches.new.left + 1 }
{
    let net = drawn.network();
    let source = source_of(drawn, name);
    let edge = edge_of(net, name);
    match place_of(places, source) {
        Some(place) => {
            let end = look_on(alloc, net, extremes, ends[place], edge, searches)?;
            ends[place] = end;
        }
        None => {
            put_place(places, source, ends.len())?;
            let end = first_end(alloc, net, extremes, name, edge, searches)?;
            ends.push(end)?;
        }
    }
    Ok(())
}

// The first end of a thing, with what is found along its edge.
fn first_end(
    alloc: Global,
    net: &Network,
    extremes: &mut Extremes,
    name: EdgeName,
    edge: Edge,
    searches: &mut EndSearches,
) -> Result<RangeEnd, NoMemory>
    requires ready { IsReady net.now extremes.old }
    requires from { edge.from.0 < net.now.events }
    requires to { edge.to.0 < net.now.events }
    requires kept { AreFoundTimes net.now searches.old.found }
    ensures ready { IsReady net.now extremes.new }
    ensures budget { extremes.new.budget ≡ extremes.old.budget }
    ensures kept { OnOk result (AreFoundTimes net.now searches.new.found) }
    ensures name { IfOk result (λ end. end.name ≡ name) }
    ensures edge { IfOk result (λ end. end.edge ≡ edge) }
    ensures found { IfOk result (λ end. IsSearched net.now edge edge.weight None end.found) }
    ensures settles { IfOk result (λ end. cause_choices net.now.constraints ≤ extremes.old.budget → 1 ≤ searches.old.left → IsEndSettled end.found) }
    ensures left { searches.old.left ≤ searches.new.left + 1 }
{
    let weight = edge.weight;
    let found = search(alloc, net, extremes, edge, weight, None, searches)?;
    Ok(RangeEnd { name, edge, found })
}

// An end, with what is found along one edge more.
fn look_on(
    alloc: Global,
    net: &Network,
    extremes: &mut Extremes,
    end: RangeEnd,
    edge: Edge,
    searches: &mut EndSearches,
) -> Result<RangeEnd, NoMemory>
    requires ready { IsReady net.now extremes.old }
    requires from { edge.from.0 < net.now.events }
    requires to { edge.to.0 < net.now.events }
    requires kept { AreFoundTimes net.now searches.old.found }
    ensures ready { IsReady net.now extremes.new }
    ensures budget { extremes.new.budget ≡ extremes.old.budget }
    ensures kept { OnOk result (AreFoundTimes net.now searches.new.found) }
    ensures found { IfOk result (IsLookedOn net.now edge end) }
    ensures settles { IfOk result (λ next. cause_choices net.now.constraints ≤ extremes.old.budget → 1 ≤ searches.old.left → IsEndSettled end.found → IsEndSettled next.found) }
    ensures left { searches.old.left ≤ searches.new.left + 1 }
{
    match end.found {
        EndFound::Narrow(only) => {
            let weight = end.edge.weight;
            let found = search(alloc, net, extremes, edge, weight, Some(only), searches)?;
            Ok(RangeEnd { found, ..end })
        }
        EndFound::Wide | EndFound::Open => Ok(end),
    }
}
