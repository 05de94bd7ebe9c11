//! A guess of times that meet the always-edges of a network from an event on.
//!
//! No proof says how the guess is made. The code checks that its times meet the edges, and uses it only then.

ghost use Rattle.std.specs.Prelude.{◌≡◌, ◌<◌, ◌≤◌, All, IfOk, IsTrue, length, pos, slice_index_or};
ghost use Rattle.event_graph.specs.Edges.{Meets};
ghost use Rattle.diff_bounds.specs.Arcs.{AreAlwaysArcs};
ghost use Rattle.diff_bounds.specs.Step.Guessing.{IsBetween, MeetFrom};

use crate::arc::Arc;
use crate::joining::join_down;
use crate::order::sort;
use crate::pending::Pending;
use crate::turns::fall_in_turns;
use event_graph::{ByEvent, Network};
use itv_base::{EventId, NoMemory};
use std::alloc::Global;
use std::marker::Model;

/// A time for each event, in picoseconds. Contracts see the times.
#[derive(Drop)]
pub struct Guess {
    times: Vec<i64>,
    // The times that are tried first.
    draft: Vec<i64>,
    // The events in the order in which their edges are followed.
    order: Vec<EventId>,
    // For each event how many edges of negative weight lead there from events whose edges have not been followed yet.
    due: Vec<u32>,
    // For each event whether its time has fallen since its edges were followed.
    waits: Vec<bool>,
}

impl Model for Guess {
    ghost use Rattle.std.specs.Prelude.{List, ℤ};
    ghost use Rattle.diff_bounds.specs.Step.Guessing.{HasCounts};

    ghost Value = { List ℤ };

    ghost view = { λ g. g.times.items };

    ghost invariant = { HasCounts };
}

impl Guess {
    /// The time 0 for each event. Takes all memory that is ever needed, or answers `NoMemory`.
    pub fn new(alloc: Global, events: u32) -> Result<Guess, NoMemory>
        ensures { IfOk result (λ guess. length guess ≡ events) }
    {
        let count = events as usize;
        Ok(Guess {
            times: Vec::from_elem(alloc, 0, count)?,
            draft: Vec::from_elem(alloc, 0, count)?,
            order: Vec::from_elem(alloc, EventId(0), count)?,
            due: Vec::from_elem(alloc, 0, count)?,
            waits: Vec::from_elem(alloc, true, count)?,
        })
    }

    /// Makes a guess for a network, with a time for each of its events. The times meet all always-edges that start at the event of the answer's number or
    /// at a later one. Mostly the answer is the least number for which there are such times, so 0 if times meet all always-edges.
    ///
    /// At first times fall from 0 as the edges of one event after another are followed. Where times meet all edges, no cycle has edges of negative
    /// weight alone. So the events have an order in which each edge of negative weight leads from an earlier event to a later one. Along this order and
    /// back, a chain settles in the first turn, whichever way it leads. If the times do not settle, they are a draft: the events join one after
    /// another, from the last one down, each as near to its draft as the edges allow.
    pub fn make(&mut self, net: &Network, out: &ByEvent<Arc>, pending: &mut Pending) -> u32
        requires out { AreAlwaysArcs net.now out.now }
        requires count { length self.old ≡ net.now.events }
        requires marks { length pending.old.marks ≡ net.now.events }
        ensures count { length self.new ≡ length self.old }
        ensures marks { length pending.new.marks ≡ length pending.old.marks }
        ensures first { result ≤ net.now.events }
        ensures meets { MeetFrom result self.new net.now }
    {
        sort(net, out, &mut self.order, &mut self.due);
        fall_in_turns(net, out, &self.order, &mut self.times, &mut self.waits);
        if meet_from(net, out, 0, &self.times) {
            return 0;
        }
        self.draft.copy_from_slice(&self.times);
        let first = join_down(net, out, 0, &self.draft, &mut self.times, pending);
        // An event that could not join has lowered times. Without it the others get their times back.
        if first > 0 {
            join_down(net, out, first, &self.draft, &mut self.times, pending);
        }
        if meet_from(net, out, first, &self.times) {
            first
        } else {
            net.events()
        }
    }

    /// The time of an event.
    pub fn time(&self, event: EventId) -> i64
        requires { event.0 < length self.now }
        ensures { result ≡ slice_index_or self.now event.0 (pos 0) }
    {
        self.times[event.0 as usize]
    }
}

// Whether times meet all always-edges that start at event `first` or at a later one.
fn meet_from(net: &Network, out: &ByEvent<Arc>, first: u32, times: &[i64]) -> bool
    requires out { AreAlwaysArcs net.now out.now }
    requires times { length times.now ≡ net.now.events }
    ensures { IsTrue result → MeetFrom first times.now net.now }
{
    for event in first..net.events() {
        if !meet_each(out.of(EventId(event)), times) {
            return false;
        }
    }
    true
}

// Whether times meet edges.
fn meet_each(arcs: &[Arc], times: &[i64]) -> bool
    requires { All (IsBetween (length times.now)) arcs.now }
    ensures { IsTrue result → All (λ arc. Meets times.now arc.edge) arcs.now }
{
    arcs.iter().all(|arc| meet(arc, times))
}

// Whether times meet an edge. The answer is `false` where the separation of its events does not fit in 64 bits.
fn meet(arc: &Arc, times: &[i64]) -> bool
    requires { IsBetween (length times.now) arc.now }
    ensures { IsTrue result → Meets times.now arc.now.edge }
{
    let from = times[arc.edge.from.0 as usize];
    let to = times[arc.edge.to.0 as usize];
    match to.checked_sub(from) {
        Some(apart) => apart <= arc.edge.weight,
        None => false,
    }
}
