//! The fall of labels over edges.

ghost use Rattle.std.specs.Prelude.{◌≡◌, ◌+◌, ◌*◌, ◌<◌, ◌≤◌, ℤ, pos, neg_ℤ, ◌+ℤ◌, ◌≤ℤ◌, All, IfNone, IfSome, MatchBool, Some, length};
ghost use Rattle.diff_bounds.specs.Arcs.{AreAlwaysArcs, AreChosenArcs, IsArc};
ghost use Rattle.diff_bounds.specs.Labels.{HaveSettled, IsAmong, IsEdgeWithin, is_lower, labels_from, stamp_at};
ghost use Rattle.event_graph.specs.Limits.{weight_limit};
ghost use Rattle.diff_bounds.specs.Step.Limits.{IsNear};
ghost use Rattle.diff_bounds.specs.Step.Chosen.{StartsAt};
ghost use Rattle.diff_bounds.specs.Step.Falling.{AllDone, Closes, Falls, IsAmongFrom, IsDone, IsDoneFrom, IsPlaced, IsRunning, Relaxes, RunsOn, scope_of};
ghost use Rattle.diff_bounds.specs.Step.Waiting.{Pushes};

use crate::arc::Arc;
use crate::chosen_edges::ChosenEdges;
use crate::pending::Pending;
use event_graph::{ByEvent, Network};
use itv_base::{EventId, MAX_EVENTS};
use trail::{Stamp, Trail};

// More than the difference of any two labels.
const FAR: i64 = 1 << 60;

/// What one fall of labels works on.
#[derive(Clone, Copy)]
pub struct Run {
    /// The slot of the label of event 0. The slots of the other events follow it.
    pub base: u32,
    /// The first event whose edges count.
    pub first: u32,
    /// The event whose label may not fall, if there is one.
    pub stop: Option<EventId>,
}

/// What relaxing an edge has done.
#[derive(Clone, Copy)]
pub enum Relaxation {
    /// The label at the end is low enough.
    Kept,
    /// The label at the end has fallen by this number, which is less than 0.
    Fell(i64),
    /// The edge ends at the stop, and its label would fall.
    Stops,
}

/// Lets labels fall until all edges are followed. Before the call each edge is followed, or the event at its start waits. The answer is an edge that
/// would lower the label at the stop, if there is one.
///
/// The events whose labels have fallen wait in a queue for their edges to be followed, as in the algorithm of Bellman and Ford.
pub fn fall(
    net: &Network,
    out: &ByEvent<Arc>,
    chosen: &ChosenEdges,
    run: Run,
    trail: &mut Trail,
    pending: &mut Pending,
) -> Option<Arc>
    requires placed { IsPlaced net.now run trail.old pending.old }
    requires running { IsRunning (scope_of net.now trail.old run) run trail.old.current.stamps }
    requires out { AreAlwaysArcs net.now out.now }
    requires chosen { AreChosenArcs net.now trail.old.current.edges chosen.now.arcs }
    requires events { chosen.now.events ≡ net.now.events }
    requires waits { AllDone (scope_of net.now trail.old run) run trail.old.current.stamps pending.old.marks }
    ensures runs { RunsOn (scope_of net.now trail.old run) run trail.old trail.new pending.old pending.new }
    ensures settled { IfNone result (HaveSettled (scope_of net.now trail.old run) (labels_from trail.new.current.stamps run.base)) }
    ensures closes { IfSome result (Closes (scope_of net.now trail.old run) run trail.new.current.stamps) }
{
    while let Some(event) = pending.pop() {
        if event.0 < run.first {
            continue;
        }
        if let Some(arc) = relax_from(net, run, event, out.of(event), trail, pending) {
            return Some(arc);
        }
        if let Some(arc) = relax_chosen(net, run, event, chosen, trail, pending) {
            return Some(arc);
        }
    }
    None
}

// Relaxes edges that all start at one event. The answer is the first edge that would lower the label at the stop.
fn relax_from(
    net: &Network,
    run: Run,
    from: EventId,
    arcs: &[Arc],
    trail: &mut Trail,
    pending: &mut Pending,
) -> Option<Arc>
    requires placed { IsPlaced net.now run trail.old pending.old }
    requires running { IsRunning (scope_of net.now trail.old run) run trail.old.current.stamps }
    requires from { from.0 < net.now.events }
    requires arcs { All (IsArc net.now) arcs.now }
    requires starts { All (StartsAt from.0) arcs.now }
    requires among { All (IsAmongFrom (scope_of net.now trail.old run) from.0) arcs.now }
    ensures falls { Falls (scope_of net.now trail.old run) run trail.old trail.new pending.old pending.new }
    ensures done { IfNone result (All (IsDoneFrom run from.0 trail.new.current.stamps pending.new.marks) arcs.now) }
    ensures closes { IfSome result (Closes (scope_of net.now trail.old run) run trail.new.current.stamps) }
{
    let near = label_in(trail, run.base + from.0)?;
    for arc in arcs {
        if follow(net, run, near, arc, trail, pending) {
            return Some(*arc);
        }
    }
    None
}

// Relaxes the chosen edges that start at an event, the latest one first. The answer is the first edge that would lower the label at the stop.
fn relax_chosen(
    net: &Network,
    run: Run,
    from: EventId,
    chosen: &ChosenEdges,
    trail: &mut Trail,
    pending: &mut Pending,
) -> Option<Arc>
    requires placed { IsPlaced net.now run trail.old pending.old }
    requires running { IsRunning (scope_of net.now trail.old run) run trail.old.current.stamps }
    requires from { from.0 < net.now.events }
    requires events { chosen.now.events ≡ net.now.events }
    requires arcs { All (IsArc net.now) chosen.now.arcs }
    requires among { All (IsAmongFrom (scope_of net.now trail.old run) from.0) chosen.now.arcs }
    ensures falls { Falls (scope_of net.now trail.old run) run trail.old trail.new pending.old pending.new }
    ensures done { IfNone result (All (IsDoneFrom run from.0 trail.new.current.stamps pending.new.marks) chosen.now.arcs) }
    ensures closes { IfSome result (Closes (scope_of net.now trail.old run) run trail.new.current.stamps) }
{
    let near = label_in(trail, run.base + from.0)?;
    let mut next = chosen.latest(from);
    while let Some(place) = next {
        let arc = chosen.arc(place);
        if follow(net, run, near, arc, trail, pending) {
            return Some(*arc);
        }
        next = chosen.earlier(place);
    }
    None
}

/// Relaxes an edge of the scope; `near` is the label at its start. If the label at its end falls, the event there waits from now on. The answer is
/// whether the edge would lower the label at the stop.
pub fn follow(
    net: &Network,
    run: Run,
    near: i64,
    arc: &Arc,
    trail: &mut Trail,
    pending: &mut Pending,
) -> bool
    requires placed { IsPlaced net.now run trail.old pending.old }
    requires running { IsRunning (scope_of net.now trail.old run) run trail.old.current.stamps }
    requires arc { IsArc net.now arc.now }
    requires among { IsAmong (scope_of net.now trail.old run) arc.now.name arc.now.edge }
    requires near { labels_from trail.old.current.stamps run.base arc.now.edge.from.0 ≡ Some near }
    ensures falls { Falls (scope_of net.now trail.old run) run trail.old trail.new pending.old pending.new }
    ensures near { labels_from trail.new.current.stamps run.base arc.now.edge.from.0 ≡ Some near }
    ensures done { MatchBool result
        (Closes (scope_of net.now trail.old run) run trail.new.current.stamps arc.now)
        (IsDone run trail.new.current.stamps pending.new.marks arc.now.edge) }
{
    match relax(net, run, near, arc, trail) {
        Relaxation::Kept => false,
        Relaxation::Fell(by) => {
            wait(run.first, arc.edge.to, by, pending);
            false
        }
        Relaxation::Stops => true,
    }
}

// Lets an event wait, if its edges count. Its label has fallen.
fn wait(first: u32, event: EventId, by: i64, pending: &mut Pending)
    requires { event.0 < length pending.old.marks }
    ensures { Pushes first event.0 pending.old pending.new }
{
    if first <= event.0 {
        pending.push(event, by);
    }
}

// Relaxes an edge; `near` is the label at its start. Where `near` plus the weight is less than the label at the end, or there is no label, this sum
// is the new label there. The label at the stop stays as it is.
fn relax(net: &Network, run: Run, near: i64, arc: &Arc, trail: &mut Trail) -> Relaxation
    requires within { IsEdgeWithin net.now.events arc.now.edge }
    requires slots { run.base + net.now.events ≤ length trail.old.current.stamps }
    requires halves { net.now.events + net.now.events ≤ length trail.old.current.stamps }
    requires most { length trail.old.current.stamps ≤ 2 * MAX_EVENTS }
    requires near { labels_from trail.old.current.stamps run.base arc.now.edge.from.0 ≡ Some near }
    requires range { IsNear near }
    ensures { Relaxes run arc.now trail.old trail.new result }
{
    let to = arc.edge.to;
    let sum = delayed(near, arc.edge.weight);
    let standing = label_in(trail, run.base + to.0);
    if !lowers(sum, standing) {
        return Relaxation::Kept;
    }
    if is_stop(run.stop, to) {
        return Relaxation::Stops;
    }
    let by = fall_between(net, trail, to, standing, sum);
    let stamp = Stamp {
        label: Some(sum),
        parent: Some(arc.name),
    };
    trail.set_label(run.base + to.0, stamp);
    Relaxation::Fell(by)
}

// By how much the label of an event falls where it gets a new one. A first label falls from far above the feasible time. Only the order in which
// events wait rests on this number.
fn fall_between(
    net: &Network,
    trail: &Trail,
    event: EventId,
    standing: Option<i64>,
    label: i64,
) -> i64
    requires event { event.0 < net.now.events }
    requires slots { net.now.events + net.now.events ≤ length trail.now.current.stamps }
    requires most { length trail.now.current.stamps ≤ 2 * MAX_EVENTS }
{
    match standing {
        Some(number) => label.wrapping_sub(number),
        None => {
            let feasible = label_in(trail, net.events() + event.0).unwrap_or(0);
            label.wrapping_sub(feasible).wrapping_sub(FAR)
        }
    }
}

// Whether the stop is this event.
fn is_stop(stop: Option<EventId>, event: EventId) -> bool
    ensures { MatchBool result (stop ≡ Some event) (stop ≡ Some event → ⊥) }
{
    stop == Some(event)
}

/// The label in a slot.
pub fn label_in(trail: &Trail, slot: u32) -> Option<i64>
    requires { slot < length trail.now.current.stamps }
    ensures { result ≡ (stamp_at trail.now.current.stamps slot).label }
{
    trail.stamp(slot).label
}

// A label plus a weight.
fn delayed(label: i64, weight: i64) -> i64
    requires label { IsNear label }
    requires weight_low { neg_ℤ (pos weight_limit) ≤ℤ weight }
    requires weight_high { weight ≤ℤ pos weight_limit }
    ensures { result ≡ label +ℤ weight }
{
    label + weight
}

// Whether a label is less than the label that stands, or no label stands.
fn lowers(label: i64, standing: Option<i64>) -> bool
    ensures { result ≡ is_lower (Some label) standing }
{
    match standing {
        None => true,
        Some(number) => label < number,
    }
}
