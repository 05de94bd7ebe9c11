//! How labels settle over one more edge.

ghost use Rattle.std.specs.Prelude.{◌≡◌, ◌<◌, ℕ, IfNone, IfSome, Some, length};
ghost use Rattle.itv_base.specs.declared.names.EventId.{EventId};
ghost use Rattle.diff_bounds.specs.Arcs.{AreAlwaysArcs, AreChosenArcs, IsArc};
ghost use Rattle.diff_bounds.specs.Labels.{HasFallen, HaveSettled, IsAmong, labels_from, stamp_at};
ghost use Rattle.diff_bounds.specs.Settled.{IsFeasible, IsSettled, at_source, zeros};
ghost use Rattle.diff_bounds.specs.Step.Falling.{Closes, RunHasFallen, IsPlaced, IsRunning, RunsOn, scope_of, with_stamps};
ghost use Rattle.diff_bounds.specs.Step.Poised.{AreLow, AreRestFollowed, IsAdded, feasible_run, scope_from, upper_run};
ghost use Rattle.diff_bounds.specs.Step.Walking.{HasLoop};

use crate::arc::Arc;
use crate::chosen_edges::ChosenEdges;
use crate::falling::{Run, fall, follow, label_in};
use crate::pending::Pending;
use event_graph::{ByEvent, Network};
use trail::Trail;

/// Lets the feasible times settle over one more edge. All other edges are followed already. The answer is an edge that closes a loop of negative sum
/// through the start of the new edge, if there is one.
pub fn add_to_feasible(
    net: &Network,
    out: &ByEvent<Arc>,
    chosen: &ChosenEdges,
    arc: Arc,
    trail: &mut Trail,
    pending: &mut Pending,
) -> Option<Arc>
    requires added { IsAdded net.now out.now chosen.now.arcs (feasible_run net.now arc.edge.from 0) arc zeros trail.old pending.old }
    requires events { chosen.now.events ≡ net.now.events }
    requires low { AreLow net.now.events trail.old.current.stamps }
    ensures ran { RunHasFallen (scope_from net.now trail.old 0) (feasible_run net.now arc.edge.from 0) trail.old.current.stamps trail.new.current.stamps }
    ensures stack { trail.new ≡ with_stamps trail.old trail.new.current.stamps }
    ensures feasible { IfNone result (IsFeasible (scope_from net.now trail.old 0) trail.new.current.stamps) }
    ensures loops { IfSome result (HasLoop net.now trail.new) }
    ensures marks { length pending.new.marks ≡ length pending.old.marks }
{
    let run = Run {
        base: net.events(),
        first: 0,
        stop: Some(arc.edge.from),
    };
    fall_over(net, out, chosen, run, arc, trail, pending)
}

/// Lets the labels from the source settle over one more edge. All other edges are followed already, and the feasible times have settled.
pub fn add_to_uppers(
    net: &Network,
    out: &ByEvent<Arc>,
    chosen: &ChosenEdges,
    arc: Arc,
    trail: &mut Trail,
    pending: &mut Pending,
)
    requires added { (source : EventId) × (source.0 < net.now.events)
        × IsAdded net.now out.now chosen.now.arcs upper_run arc (at_source source) trail.old pending.old }
    requires events { chosen.now.events ≡ net.now.events }
    requires feasible { IsFeasible (scope_from net.now trail.old 0) trail.old.current.stamps }
    ensures stack { trail.new ≡ with_stamps trail.old trail.new.current.stamps }
    ensures fallen { (slot : ℕ) → HasFallen (stamp_at trail.old.current.stamps slot) (stamp_at trail.new.current.stamps slot) }
    ensures settled { (source : EventId) → source.0 < net.now.events
        → IsAdded net.now out.now chosen.now.arcs upper_run arc (at_source source) trail.old pending.old
        → IsSettled (scope_from net.now trail.old 0) (Some source) trail.new.current.stamps }
    ensures marks { length pending.new.marks ≡ length pending.old.marks }
{
    let run = Run {
        base: 0,
        first: 0,
        stop: None,
    };
    match fall_over(net, out, chosen, run, arc, trail, pending) {
        None => {}
        Some(_arc) => unreachable!(),
    }
}

// Lets labels fall over one edge, and on from where it leads. All other edges are followed already. The answer is an edge that would lower the label
// at the stop, if there is one.
fn fall_over(
    net: &Network,
    out: &ByEvent<Arc>,
    chosen: &ChosenEdges,
    run: Run,
    arc: Arc,
    trail: &mut Trail,
    pending: &mut Pending,
) -> Option<Arc>
    requires placed { IsPlaced net.now run trail.old pending.old }
    requires running { IsRunning (scope_of net.now trail.old run) run trail.old.current.stamps }
    requires out { AreAlwaysArcs net.now out.now }
    requires chosen { AreChosenArcs net.now trail.old.current.edges chosen.now.arcs }
    requires events { chosen.now.events ≡ net.now.events }
    requires arc { IsArc net.now arc }
    requires among { IsAmong (scope_of net.now trail.old run) arc.name arc.edge }
    requires rest { AreRestFollowed (scope_of net.now trail.old run) arc.edge (labels_from trail.old.current.stamps run.base) }
    ensures runs { RunsOn (scope_of net.now trail.old run) run trail.old trail.new pending.old pending.new }
    ensures settled { IfNone result (HaveSettled (scope_of net.now trail.old run) (labels_from trail.new.current.stamps run.base)) }
    ensures closes { IfSome result (Closes (scope_of net.now trail.old run) run trail.new.current.stamps) }
{
    let near = label_in(trail, run.base + arc.edge.from.0)?;
    pending.clear();
    if follow(net, run, near, &arc, trail, pending) {
        return Some(arc);
    }
    fall(net, out, chosen, run, trail, pending)
}
