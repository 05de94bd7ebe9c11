//! Bounds on the separations of events from a source, over a graph that takes one more edge at a time and gives it back.

ghost use Rattle.std.specs.Prelude.{◌≡◌, ◌<◌, ◌≤◌, ◌↔◌, ⊤, ℕ, ℤ, pos, [], List, IfOk, IfSome, IsSome, Some, All, length};
ghost use mathlib.Core.Option.{none};
ghost use Rattle.std.specs.Borrow.{follows_so, sem};
ghost use Rattle.itv_base.specs.declared.names.EventId.{EventId};
ghost use Rattle.event_graph.specs.Network.{Net};
ghost use Rattle.event_graph.specs.RootBound.{HasNoRoot};
ghost use Rattle.event_graph.specs.Times.{raised, separation, time_of};
ghost use Rattle.trail.specs.Stack.{after_pop};
ghost use Rattle.diff_bounds.specs.Current.{HasNoTimes, IsLoop, IsPath, IsUpper, MeetsCurrent, with_choice};
ghost use Rattle.event_graph.specs.Limits.{IsReach};
ghost use Rattle.diff_bounds.specs.Limits.{IsTimely};
ghost use Rattle.diff_bounds.specs.contracts.bounds.Bounds.{the_row};
ghost use Rattle.diff_bounds.specs.Standing.{AreTimesOf, HasDescended, IsMadeFor, IsRayOf, Stands, chosen_of, upper_of};

use crate::adding::{add_to_feasible, add_to_uppers};
use crate::arc::Arc;
use crate::chosen_edges::ChosenEdges;
use crate::falling::label_in;
use crate::fit::Fit;
use crate::guess::Guess;
use crate::out_edges::out_edges;
use crate::pending::Pending;
use crate::settling::{reach, settle_root};
use crate::times::{least_lift, write_ray, write_times};
use crate::walks::{loop_into, path_into};
use event_graph::{ByEvent, Network};
use itv_base::{EdgeName, EventId, NoMemory, Side};
use std::alloc::Global;
use std::marker::Model;
use trail::Trail;

/// Bounds on a network: the greatest separations of its events from a source, in picoseconds, and times that attain them. Only times that meet the
/// **current edges** count. The current edges are the always-edges of the network and the chosen edges.
///
/// Bounds are made for one network. A graph stands from a [`start`](Bounds::start) that fits until the next start. A [`descend`](Bounds::descend)
/// adds an edge, and a [`retreat`](Bounds::retreat) gives the graph back as it was before. One [`Trail`] keeps the graphs, so a level costs what it
/// changes. The first half of its slots has the label of each event from the source, the second half the feasible times. Labels fall along edges. The
/// event whose label has fallen furthest comes first. The feasible times are potentials, which show in advance that the labels settle.
#[derive(Drop)]
pub struct Bounds {
    events: u32,
    out: ByEvent<Arc>,
    chosen: ChosenEdges,
    guess: Guess,
    trail: Trail,
    pending: Pending,
    // Whether the feasible times of the first graph have settled.
    settled: bool,
    source: Option<EventId>,
    walk: Vec<EdgeName>,
    // How many edges the last walk that was found has.
    count: usize,
}

impl Model for Bounds {
    ghost use Rattle.diff_bounds.specs.Standing.{HasRoom, BoundsView, standing_in};

    ghost Value = { BoundsView };

    ghost view = { standing_in };

    ghost invariant = { HasRoom };
}

const NO_EDGE: EdgeName = EdgeName {
    constraint: 0,
    cause: 0,
    side: Side::Lower,
};

impl Bounds {
    /// Bounds for a network. This call takes all memory that they will ever need, or returns `NoMemory`. No graph stands yet.
    pub fn new(alloc: Global, net: &Network) -> Result<Bounds, NoMemory>
        ensures { IfOk result (λ bounds. IsMadeFor net.now bounds) }
    {
        let events = net.events();
        let levels = net.splittable_count();
        Ok(Bounds {
            events,
            settled: false,
            source: None,
            count: 0,
            walk: Vec::from_elem(alloc, NO_EDGE, events as usize)?,
            out: out_edges(alloc, net)?,
            pending: Pending::new(alloc, events)?,
            guess: Guess::new(alloc, events)?,
            chosen: ChosenEdges::new(alloc, events, levels)?,
            trail: Trail::new(alloc, events + events, levels)?,
        })
    }

    /// Lets the bounds stand on the always-edges of the network that they were made for, from one of its events or from none. The
    /// answer is `Loop` if and only if no times meet these edges. After `Loop` no graph stands until the next start that fits.
    pub fn start(&mut self, net: &Network, source: Option<EventId>) -> Fit
        requires network { IsMadeFor net.now self.old }
        requires source { IfSome source (λ s. s.0 < net.now.events) }
        ensures stands { result ≡ Fit.Fits → Stands net.now self.new }
        ensures chosen { result ≡ Fit.Fits → chosen_of self.new ≡ [] }
        ensures below { result ≡ Fit.Fits → self.new.trail.below ≡ [] }
        ensures no_times { (result ≡ Fit.Loop) ↔ HasNoRoot net.now }
        ensures walk { result ≡ Fit.Loop → IsLoop net.now [] self.new.walk }
        ensures source { self.new.source ≡ source }
        ensures network { IsMadeFor net.now self.new }
    {
        self.source = source;
        self.chosen.truncate(0);
        let closing = settle_root(
            self.settled,
            net,
            &self.out,
            &self.chosen,
            &mut self.guess,
            &mut self.trail,
            &mut self.pending,
        );
        if let Some(arc) = closing {
            self.count = loop_into(net, &self.trail, arc, &mut self.walk);
            return Fit::Loop;
        }
        self.settled = true;
        reach(
            net,
            &self.out,
            &self.chosen,
            source,
            &mut self.trail,
            &mut self.pending,
        );
        Fit::Fits
    }

    /// Adds an edge of the network as a new level. All edges that were current stay current in it. Where there is no edge of this name, the new level
    /// has the same edges. A graph has to stand. It has to have fewer levels above the start than there are constraints with two or more causes. The
    /// answer is `Loop` if and only if no times meet the edges of the new level. After `Loop` the new level is taken back, and all but the
    /// [`walk`](Bounds::walk) is as it was.
    pub fn descend(&mut self, net: &Network, choice: EdgeName) -> Fit
        requires stands { Stands net.now self.old }
        requires levels { length self.old.trail.below < self.old.trail.levels }
        ensures stands { Stands net.now self.new }
        ensures fits { result ≡ Fit.Fits → HasDescended net.now choice self.old self.new }
        ensures no_times { (result ≡ Fit.Loop) ↔ HasNoTimes net.now (with_choice net.now (chosen_of self.old) choice) }
        ensures same { result ≡ Fit.Loop → self.new ≡ record self.old { walk = self.new.walk } }
        ensures walk { result ≡ Fit.Loop → IsLoop net.now (with_choice net.now (chosen_of self.old) choice) self.new.walk }
    {
        self.trail.push_level();
        let Some(edge) = net.edge(choice) else {
            return Fit::Fits;
        };
        self.trail.add_edge(choice);
        let arc = Arc { name: choice, edge };
        self.chosen.push(arc);
        let closing = add_to_feasible(
            net,
            &self.out,
            &self.chosen,
            arc,
            &mut self.trail,
            &mut self.pending,
        );
        if let Some(last) = closing {
            self.count = loop_into(net, &self.trail, last, &mut self.walk);
            self.trail.pop_level();
            self.chosen.pop();
            return Fit::Loop;
        }
        if self.source.is_none() {
            return Fit::Fits;
        }
        add_to_uppers(
            net,
            &self.out,
            &self.chosen,
            arc,
            &mut self.trail,
            &mut self.pending,
        );
        Fit::Fits
    }

    /// Gives back the graph as it was before the last [`descend`](Bounds::descend) that fitted and was not taken back yet. There has to be such a
    /// level above the start.
    pub fn retreat(&mut self)
        requires stands { (net : Net) × Stands net self.old }
        requires level { 0 < length self.old.trail.below }
        ensures trail { self.new.trail ≡ after_pop self.old.trail }
        ensures source { self.new.source ≡ self.old.source }
        ensures stands { (net : Net) → Stands net self.old → Stands net self.new }
    {
        self.trail.pop_level();
        let count = self.trail.edge_count() as usize;
        self.chosen.truncate(count);
    }

    /// The greatest separation of an event of the network from the source in picoseconds, or `None` if it is unbounded. A graph has
    /// to stand from a source.
    pub fn upper(&self, event: EventId) -> Option<i64>
        requires stands { (net : Net) × Stands net self.now }
        requires source { IsSome self.now.source }
        requires event { event.0 < self.now.events }
        ensures value { result ≡ upper_of self.now event.0 }
        ensures greatest { (net : Net) (source : EventId)
            → Stands net self.now → self.now.source ≡ Some source → IsUpper net (chosen_of self.now) source event result }
        ensures range { IfSome result IsReach }
    {
        label_in(&self.trail, event.0)
    }

    /// Writes one time for each event, in picoseconds. The times meet the current edges. An event whose [`upper`](Bounds::upper) is a number has that
    /// number as its time. So from a source the time of the source is 0, and the times attain all these numbers at once. Each other event has its
    /// feasible time plus the lift. The lift is one number of picoseconds, the same for all events: no [`upper`](Bounds::upper) is greater than the
    /// feasible time of its event plus the lift. No time is below 0 by more than the reach of a path, or above 0 by more than twice the reach of a
    /// path. A graph has to stand.
    pub fn times_into(&self, out: &mut [i64])
        requires stands { (net : Net) × Stands net self.now }
        requires count { length out.old ≡ self.now.events }
        ensures times { AreTimesOf self.now out.new }
        ensures meets { (net : Net) → Stands net self.now → MeetsCurrent net (chosen_of self.now) out.new }
        ensures attained { (net : Net) (source event : EventId) (value : ℤ)
            → Stands net self.now → self.now.source ≡ Some source → event.0 < self.now.events
            → upper_of self.now event.0 ≡ Some value → separation out.new source event ≡ value }
        ensures origin { (net : Net) (source : EventId)
            → Stands net self.now → self.now.source ≡ Some source → time_of out.new source ≡ pos 0 }
        ensures range { All IsTimely out.new }
    {
        let lift = least_lift(&self.trail, self.events);
        write_times(&self.trail, self.events, lift, out);
    }

    /// Writes for each event whether its [`upper`](Bounds::upper) is `None`. Take the times of [`times_into`](Bounds::times_into), and raise the
    /// times of all these events by one number of picoseconds, however large: the times still meet the current edges. A graph has to stand from a
    /// source.
    pub fn ray_into(&self, out: &mut [bool])
        requires stands { (net : Net) × Stands net self.now }
        requires source { IsSome self.now.source }
        requires count { length out.old ≡ self.now.events }
        ensures set { IsRayOf self.now out.new }
        ensures raised { (net : Net) (times : List ℤ) (by : ℕ)
            → Stands net self.now → AreTimesOf self.now times → MeetsCurrent net (chosen_of self.now) (raised out.new by times) }
    {
        write_ray(&self.trail, out);
    }

    /// A path of current edges from the source to an event whose [`upper`](Bounds::upper) is a number. The sum of the path is that
    /// number, in picoseconds. The path has at most as many edges as there are events. The path is the [`walk`](Bounds::walk) until the
    /// next call that takes the bounds as `&mut`. A graph has to stand from a source.
    pub fn path(&mut self, net: &Network, event: EventId) -> &[EdgeName]
        requires stands { Stands net.now self.old }
        requires event { event.0 < net.now.events }
        requires source { IsSome self.old.source }
        requires reached { IsSome (upper_of self.old event.0) }
        ensures* same { sem 𝓛 (follows_so the_row the_row self.entry.ghost_name none (λ _ _. ⊤) (λ b. b ≡ record self.old { walk = result.now })) }
        ensures path { (source : EventId) (value : ℤ) → self.old.source ≡ Some source → upper_of self.old event.0 ≡ Some value
            → IsPath net.now (chosen_of self.old) source event value result.now }
    {
        self.find_path(net, event);
        self.walk()
    }

    /// Finds a path as [`path`](Bounds::path) does. The path is the [`walk`](Bounds::walk) until the next call that takes the bounds as
    /// `&mut`.
    pub fn find_path(&mut self, net: &Network, event: EventId)
        requires stands { Stands net.now self.old }
        requires event { event.0 < net.now.events }
        requires source { IsSome self.old.source }
        requires reached { IsSome (upper_of self.old event.0) }
        ensures same { self.new ≡ record self.old { walk = self.new.walk } }
        ensures path { (source : EventId) (value : ℤ) → self.old.source ≡ Some source → upper_of self.old event.0 ≡ Some value
            → IsPath net.now (chosen_of self.old) source event value self.new.walk }
    {
        if let Some(source) = self.source {
            self.count = path_into(net, &self.trail, 0, event, source, &mut self.walk);
        }
    }

    /// The walk that the last call with the bounds as `&mut` found. [`path`](Bounds::path) and [`find_path`](Bounds::find_path) find a walk, and so
    /// do [`start`](Bounds::start) and [`descend`](Bounds::descend) where they answer `Loop`. After any other call that takes the bounds as `&mut`
    /// nothing is promised of the walk.
    pub fn walk(&self) -> &[EdgeName]
        ensures { result.now ≡ self.now.walk }
    {
        &self.walk[..self.count]
    }

    /// The same as [`walk`](Bounds::walk). After an answer `Loop` the walk is closed, and each of its edges is a current edge or the edge that the
    /// call was to add. The sum of the walk is negative. The walk has at most as many edges as there are events. All this holds until the next call
    /// that takes the bounds as `&mut`.
    pub fn loop_walk(&self) -> &[EdgeName]
        ensures { result.now ≡ self.now.walk }
    {
        self.walk()
    }

    /// The stack of graphs. A graph lists the chosen edges. The slot of an event's number has its [`upper`](Bounds::upper) as its label.
    pub fn trail(&self) -> &Trail
        ensures { result.now ≡ self.now.trail }
    {
        &self.trail
    }
}
