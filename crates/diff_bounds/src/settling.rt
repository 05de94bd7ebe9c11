//! The labels of a graph: how they begin, and how they settle.

ghost use Rattle.std.specs.Prelude.{◌≡◌, ◌+◌, ◌<◌, ◌≤◌, ℕ, false, true, [], IfNone, IfSome, IsTrue, Some, length};
ghost use Rattle.itv_base.specs.declared.limits.TheConstants.{MAX_EVENTS};
ghost use Rattle.itv_base.specs.declared.names.EventId.{EventId};
ghost use Rattle.event_graph.specs.Network.{IsNet};
ghost use Rattle.trail.specs.Stack.{new_stack};
ghost use Rattle.diff_bounds.specs.Arcs.{AreAlwaysArcs, AreChosenArcs};
ghost use Rattle.diff_bounds.specs.Labels.{HasFallen, HaveSettled, labels_from, stamp_at};
ghost use Rattle.diff_bounds.specs.Settled.{AreLabelsNear, IsFeasible, IsRootGraph, IsSettled, at_source, bottom, zeros};
ghost use Rattle.diff_bounds.specs.Step.Falling.{Closes, RunHasFallen, IsPlaced, IsRunning, RunsOn, scope_of, with_stamps};
ghost use Rattle.diff_bounds.specs.Step.Guessing.{MeetFrom};
ghost use Rattle.diff_bounds.specs.Step.Poised.{AreLow, AreOthersFollowed, HasBegun, HasCleared, IsFirstGraph, IsRunReady, feasible_run, scope_from, upper_run};
ghost use Rattle.diff_bounds.specs.Step.Waiting.{is_waiting};
ghost use Rattle.diff_bounds.specs.Step.Walking.{HasLoop};

use crate::arc::Arc;
use crate::chosen_edges::ChosenEdges;
use crate::falling::{Run, fall};
use crate::guess::Guess;
use crate::pending::Pending;
use event_graph::{ByEvent, Network};
use itv_base::EventId;
use trail::{Stamp, Trail};

const EMPTY: Stamp = Stamp {
    label: None,
    parent: None,
};

const ZERO: Stamp = Stamp {
    label: Some(0),
    parent: None,
};

/// Makes the first graph the current one, and computes its feasible times where they have not settled yet. The answer is an edge that closes a loop
/// of negative sum, if there is one.
///
/// A guess of times meets the always-edges from an event on: mostly from the first event on for which there are such times. Over these edges the
/// feasible times settle at once. Over the edges of the events before it they settle event by event, which finds a loop if there is one. Both ways give
/// the same feasible times, so the loop is the same wherever the guess ends.
pub fn settle_root(
    settled: bool,
    net: &Network,
    out: &ByEvent<Arc>,
    chosen: &ChosenEdges,
    guess: &mut Guess,
    trail: &mut Trail,
    pending: &mut Pending,
) -> Option<Arc>
    requires net { IsNet net.now }
    requires out { AreAlwaysArcs net.now out.now }
    requires chosen { chosen.now.arcs ≡ [] }
    requires events { chosen.now.events ≡ net.now.events }
    requires guess { length guess.old ≡ net.now.events }
    requires slots { length trail.old.current.stamps ≡ net.now.events + net.now.events }
    requires marks { length pending.old.marks ≡ net.now.events }
    requires root { IsTrue settled → IsRootGraph net.now (bottom trail.old.current trail.old.below) }
    ensures first { IfNone result (IsFirstGraph net.now trail.new) }
    ensures loops { IfSome result (HasLoop net.now trail.new) }
    ensures edges { trail.new.current.edges ≡ [] }
    ensures levels { trail.new.levels ≡ trail.old.levels }
    ensures slots { length trail.new.current.stamps ≡ length trail.old.current.stamps }
    ensures marks { length pending.new.marks ≡ length pending.old.marks }
    ensures unsettled { IfSome result (λ _. settled ≡ false) }
    ensures guess { length guess.new ≡ length guess.old }
{
    if settled {
        pop_all(trail);
        return None;
    }
    trail.reset();
    begin(trail, net.events());
    let first = guess.make(net, out, pending);
    settle_at_once(net, out, chosen, guess, first, trail, pending);
    settle_by_event(net, out, chosen, first, trail, pending)
}

// Takes all levels back.
fn pop_all(trail: &mut Trail)
    ensures { trail.new ≡ record {
      levels = trail.old.levels;
      current = bottom trail.old.current trail.old.below;
      below = [];
    } }
{
    while trail.depth() > 0 {
        trail.pop_level();
    }
}

// Labels each event with 0 in the second half of the slots.
fn begin(trail: &mut Trail, events: u32)
    requires events { events ≤ MAX_EVENTS }
    requires stack { trail.old ≡ new_stack (events + events) trail.old.levels }
    ensures stack { trail.new ≡ with_stamps trail.old trail.new.current.stamps }
    ensures begun { HasBegun events trail.new.current.stamps }
{
    for event in 0..events {
        trail.set_label(events + event, ZERO);
    }
}

// Lets the feasible times of the first graph settle at once over the always-edges that start at event `first` or at a later one, where a guess meets
// these edges. All these events wait. The event whose feasible time is the least far above the guess comes first, so no event falls again after it was
// taken.
fn settle_at_once(
    net: &Network,
    out: &ByEvent<Arc>,
    chosen: &ChosenEdges,
    guess: &Guess,
    first: u32,
    trail: &mut Trail,
    pending: &mut Pending,
)
    requires net { IsNet net.now }
    requires out { AreAlwaysArcs net.now out.now }
    requires chosen { chosen.now.arcs ≡ [] }
    requires events { chosen.now.events ≡ net.now.events }
    requires guess { MeetFrom first guess.now net.now }
    requires times { length guess.now ≡ net.now.events }
    requires edges { trail.old.current.edges ≡ [] }
    requires begun { HasBegun net.now.events trail.old.current.stamps }
    requires marks { length pending.old.marks ≡ net.now.events }
    ensures stack { trail.new ≡ with_stamps trail.old trail.new.current.stamps }
    ensures slots { length trail.new.current.stamps ≡ length trail.old.current.stamps }
    ensures near { AreLabelsNear trail.new.current.stamps }
    ensures feasible { IsFeasible (scope_from net.now trail.old first) trail.new.current.stamps }
    ensures marks { length pending.new.marks ≡ length pending.old.marks }
{
    let events = net.events();
    push_from(first, events, guess, pending);
    let run = Run {
        base: events,
        first,
        stop: None,
    };
    match fall(net, out, chosen, run, trail, pending) {
        None => {}
        Some(_arc) => unreachable!(),
    }
}

// Queues event `first` and all events after it. An event's priority is its label minus its guess; at the start the label is 0. Each later fall of the
// label is added to it.
fn push_from(first: u32, events: u32, guess: &Guess, pending: &mut Pending)
    requires guess { length guess.now ≡ events }
    requires marks { length pending.old.marks ≡ events }
    ensures marks { length pending.new.marks ≡ length pending.old.marks }
    ensures all { (event : ℕ) → first ≤ event → event < events → is_waiting pending.new.marks event ≡ true }
{
    pending.clear();
    for event in first..events {
        let event = EventId(event);
        pending.push(event, guess.time(event).wrapping_neg());
    }
}

// Lets the feasible times of the first graph settle over the always-edges that start before event `settled`. They have settled over all others. The
// edges are added event by event, the last event first. The answer is an edge that closes a loop of negative sum, if there is one.
fn settle_by_event(
    net: &Network,
    out: &ByEvent<Arc>,
    chosen: &ChosenEdges,
    settled: u32,
    trail: &mut Trail,
    pending: &mut Pending,
) -> Option<Arc>
    requires net { IsNet net.now }
    requires out { AreAlwaysArcs net.now out.now }
    requires chosen { chosen.now.arcs ≡ [] }
    requires events { chosen.now.events ≡ net.now.events }
    requires settled { settled ≤ net.now.events }
    requires edges { trail.old.current.edges ≡ [] }
    requires near { AreLabelsNear trail.old.current.stamps }
    requires feasible { IsFeasible (scope_from net.now trail.old settled) trail.old.current.stamps }
    requires marks { length pending.old.marks ≡ net.now.events }
    ensures stack { trail.new ≡ with_stamps trail.old trail.new.current.stamps }
    ensures slots { length trail.new.current.stamps ≡ length trail.old.current.stamps }
    ensures feasible { IfNone result (IsFeasible (scope_from net.now trail.old 0) trail.new.current.stamps) }
    ensures loops { IfSome result (HasLoop net.now trail.new) }
    ensures marks { length pending.new.marks ≡ length pending.old.marks }
{
    let mut first = settled;
    while first > 0 {
        first -= 1;
        let from = EventId(first);
        if let Some(arc) = settle_feasible(net, out, chosen, from, first, trail, pending) {
            return Some(arc);
        }
    }
    None
}

// Lets the feasible times settle over the edges that start at an event. All other edges are followed already. The edges of events below `first` do
// not count. The answer is an edge that closes a loop of negative sum through the event, if there is one.
fn settle_feasible(
    net: &Network,
    out: &ByEvent<Arc>,
    chosen: &ChosenEdges,
    from: EventId,
    first: u32,
    trail: &mut Trail,
    pending: &mut Pending,
) -> Option<Arc>
    requires ready { IsRunReady net.now out.now chosen.now.arcs (feasible_run net.now from first) from zeros trail.old pending.old }
    requires events { chosen.now.events ≡ net.now.events }
    requires low { AreLow net.now.events trail.old.current.stamps }
    ensures ran { RunHasFallen (scope_from net.now trail.old first) (feasible_run net.now from first) trail.old.current.stamps trail.new.current.stamps }
    ensures stack { trail.new ≡ with_stamps trail.old trail.new.current.stamps }
    ensures feasible { IfNone result (IsFeasible (scope_from net.now trail.old first) trail.new.current.stamps) }
    ensures loops { IfSome result (HasLoop net.now trail.new) }
    ensures marks { length pending.new.marks ≡ length pending.old.marks }
{
    let run = Run {
        base: net.events(),
        first,
        stop: Some(from),
    };
    fall_from(net, out, chosen, run, from, trail, pending)
}

/// Computes the labels from a source anew, in a first graph whose feasible times have settled. Without a source there are no labels.
pub fn reach(
    net: &Network,
    out: &ByEvent<Arc>,
    chosen: &ChosenEdges,
    source: Option<EventId>,
    trail: &mut Trail,
    pending: &mut Pending,
)
    requires net { IsNet net.now }
    requires out { AreAlwaysArcs net.now out.now }
    requires chosen { chosen.now.arcs ≡ [] }
    requires events { chosen.now.events ≡ net.now.events }
    requires first { IsFirstGraph net.now trail.old }
    requires source { IfSome source (λ s. s.0 < net.now.events) }
    requires marks { length pending.old.marks ≡ net.now.events }
    ensures stack { trail.new ≡ with_stamps trail.old trail.new.current.stamps }
    ensures settled { IsSettled (scope_from net.now trail.old 0) source trail.new.current.stamps }
    ensures marks { length pending.new.marks ≡ length pending.old.marks }
{
    clear_uppers(trail, net.events());
    if let Some(event) = source {
        trail.set_label(event.0, ZERO);
        settle_uppers(net, out, chosen, event, trail, pending);
    }
}

// Clears the labels in the first half of the slots.
fn clear_uppers(trail: &mut Trail, events: u32)
    requires { length trail.old.current.stamps ≡ events + events }
    ensures stack { trail.new ≡ with_stamps trail.old trail.new.current.stamps }
    ensures cleared { HasCleared events trail.old.current.stamps trail.new.current.stamps }
{
    for event in 0..events {
        trail.set_label(event, EMPTY);
    }
}

// Lets the labels from the source settle over the edges that start at an event. All other edges are followed already, and the feasible times have
// settled.
fn settle_uppers(
    net: &Network,
    out: &ByEvent<Arc>,
    chosen: &ChosenEdges,
    from: EventId,
    trail: &mut Trail,
    pending: &mut Pending,
)
    requires ready { (source : EventId) × (source.0 < net.now.events)
        × IsRunReady net.now out.now chosen.now.arcs upper_run from (at_source source) trail.old pending.old }
    requires events { chosen.now.events ≡ net.now.events }
    requires feasible { IsFeasible (scope_from net.now trail.old 0) trail.old.current.stamps }
    ensures stack { trail.new ≡ with_stamps trail.old trail.new.current.stamps }
    ensures fallen { (slot : ℕ) → HasFallen (stamp_at trail.old.current.stamps slot) (stamp_at trail.new.current.stamps slot) }
    ensures settled { (source : EventId) → source.0 < net.now.events
        → IsRunReady net.now out.now chosen.now.arcs upper_run from (at_source source) trail.old pending.old
        → IsSettled (scope_from net.now trail.old 0) (Some source) trail.new.current.stamps }
    ensures marks { length pending.new.marks ≡ length pending.old.marks }
{
    let run = Run {
        base: 0,
        first: 0,
        stop: None,
    };
    match fall_from(net, out, chosen, run, from, trail, pending) {
        None => {}
        Some(_arc) => unreachable!(),
    }
}

// Lets labels fall from an event on. All edges are followed already, except for the edges that start there. The answer is an edge that would lower the
// label at the stop, if there is one.
fn fall_from(
    net: &Network,
    out: &ByEvent<Arc>,
    chosen: &ChosenEdges,
    run: Run,
    from: EventId,
    trail: &mut Trail,
    pending: &mut Pending,
) -> Option<Arc>
    requires placed { IsPlaced net.now run trail.old pending.old }
    requires running { IsRunning (scope_of net.now trail.old run) run trail.old.current.stamps }
    requires out { AreAlwaysArcs net.now out.now }
    requires chosen { AreChosenArcs net.now trail.old.current.edges chosen.now.arcs }
    requires events { chosen.now.events ≡ net.now.events }
    requires from { from.0 < net.now.events }
    requires others { AreOthersFollowed (scope_of net.now trail.old run) from (labels_from trail.old.current.stamps run.base) }
    ensures runs { RunsOn (scope_of net.now trail.old run) run trail.old trail.new pending.old pending.new }
    ensures settled { IfNone result (HaveSettled (scope_of net.now trail.old run) (labels_from trail.new.current.stamps run.base)) }
    ensures closes { IfSome result (Closes (scope_of net.now trail.old run) run trail.new.current.stamps) }
{
    pending.clear();
    pending.push(from, 0);
    fall(net, out, chosen, run, trail, pending)
}
