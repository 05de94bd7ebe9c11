//! The chosen edges, by the order in which they were chosen and by the event where they start.

ghost use Rattle.std.specs.Prelude.{◌≡◌, ◌<◌, ◌-◌, ◌++◌, ◌∷◌, [], IfOk, Some, length, slice_get, take};
ghost use Rattle.diff_bounds.specs.Step.Chosen.{IsEarlier, IsLatest};

use crate::arc::Arc;
use itv_base::{EventId, NoMemory};
use std::alloc::Global;
use std::marker::Model;

/// The chosen edges, the oldest one first. The edges that start at one event are linked: the latest one is found first, and each leads to the one
/// chosen before it. Contracts see the edges, the number of events, and the number of edges for which there is room.
#[derive(Drop)]
pub struct ChosenEdges {
    arcs: Vec<Arc>,
    // For each edge the place of the latest one before it that starts at the same event.
    earlier: Vec<Option<usize>>,
    // For each event the place of the latest edge that starts there.
    latest: Vec<Option<usize>>,
    // For how many edges there is room.
    room: usize,
}

impl Model for ChosenEdges {
    ghost use Rattle.diff_bounds.specs.Step.Chosen.{AreKept, ChosenEdgesView, chosen_in};

    ghost Value = { ChosenEdgesView };

    ghost view = { chosen_in };

    ghost invariant = { AreKept };
}

impl ChosenEdges {
    /// No chosen edges, for a number of events, with room for a number of edges. Takes all memory that is ever needed, or answers
    /// `NoMemory`.
    pub fn new(alloc: Global, events: u32, room: u32) -> Result<ChosenEdges, NoMemory>
        ensures { IfOk result (λ c. c ≡ record { arcs = []; events = events; room = room }) }
    {
        let room = room as usize;
        Ok(ChosenEdges {
            arcs: Vec::with_capacity(alloc, room)?,
            earlier: Vec::with_capacity(alloc, room)?,
            latest: Vec::from_elem(alloc, None, events as usize)?,
            room,
        })
    }

    /// Puts an edge at the end.
    pub fn push(&mut self, arc: Arc)
        requires start { arc.edge.from.0 < self.old.events }
        requires room { length self.old.arcs < self.old.room }
        ensures { self.new ≡ record self.old { arcs = self.old.arcs ++ arc ∷ [] } }
    {
        let place = self.arcs.len();
        let start = arc.edge.from.0 as usize;
        self.arcs.push_reserved(arc);
        self.earlier.push_reserved(self.latest[start]);
        self.latest[start] = Some(place);
    }

    /// Keeps the `count` oldest edges and takes all others away.
    pub fn truncate(&mut self, count: usize)
        ensures { self.new ≡ record self.old { arcs = take count self.old.arcs } }
    {
        while count < self.arcs.len() {
            self.pop();
        }
    }

    /// Takes the latest edge away, if there is one.
    pub fn pop(&mut self)
        ensures { self.new ≡ record self.old { arcs = take (length self.old.arcs - 1) self.old.arcs } }
    {
        if let Some(arc) = self.arcs.pop() {
            self.latest[arc.edge.from.0 as usize] = self.earlier.pop().unwrap();
        }
    }

    /// The place, counted from 0, of the latest edge that starts at an event, if there is one.
    pub fn latest(&self, event: EventId) -> Option<usize>
        requires { event.0 < self.now.events }
        ensures { IsLatest self.now.arcs event.0 (length self.now.arcs) result }
    {
        self.latest[event.0 as usize]
    }

    /// The place, counted from 0, of the latest edge that starts at the same event as the edge at a place and comes before it, if there is one.
    pub fn earlier(&self, place: usize) -> Option<usize>
        requires { place < length self.now.arcs }
        ensures { IsEarlier self.now.arcs place result }
    {
        self.earlier[place]
    }

    /// The edge at a place, counted from 0.
    pub fn arc(&self, place: usize) -> &Arc
        requires { place < length self.now.arcs }
        ensures { slice_get self.now.arcs place ≡ Some result.now }
    {
        &self.arcs[place]
    }
}
