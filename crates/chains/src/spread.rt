//! Which events were reached, and by which edges.

ghost use Rattle.std.specs.Prelude.{◌≡◌, ◌<◌, ◌≤◌, ◌∷◌, [], true, false, IfOk, MatchOption, length, replicate, slice_index_or};
ghost use Rattle.chains.specs.Step.Spreading.{spread_at, spread_by};

use itv_base::{EdgeName, EventId, NoMemory};
use std::alloc::Global;
use std::marker::Model;

/// The events from which edges lead to one event, the target, and the edges by which they were reached: one edge for each of these events
/// except the target. Contracts see a flag for each event, and the edges, the edge that was found last first.
#[derive(Drop)]
pub struct Spread {
    reached: Vec<bool>,
    found: Vec<EdgeName>,
}

impl Model for Spread {
    ghost use Rattle.chains.specs.Step.Spreading.{HasRoom, Spread, spread_in};

    ghost Value = { Spread };

    ghost view = { spread_in };

    ghost invariant = { HasRoom };
}

impl Spread {
    /// Room for a number of events, none of them reached. Takes all the memory that it ever needs, or answers `NoMemory`.
    pub fn new(alloc: Global, events: u32) -> Result<Spread, NoMemory>
        ensures { IfOk result (λ s. s ≡ record { reached = replicate events false; found = [] }) }
    {
        let count = events as usize;
        Ok(Spread {
            reached: Vec::from_elem(alloc, false, count)?,
            found: Vec::with_capacity(alloc, count)?,
        })
    }

    /// Begins anew with the event to which all events are to lead.
    pub fn begin(&mut self, to: EventId)
        requires { to.0 < length self.old.reached }
        ensures { self.new ≡ spread_at (length self.old.reached) to }
    {
        self.found.clear();
        self.reached.fill(false);
        self.reached[to.0 as usize] = true;
    }

    /// How many edges were found.
    pub fn len(&self) -> usize
        ensures count { result ≡ length self.now.found }
        ensures most { length self.now.found ≤ length self.now.reached }
    {
        self.found.len()
    }

    /// Whether an event was reached.
    pub fn has(&self, event: EventId) -> bool
        requires { event.0 < length self.now.reached }
        ensures { result ≡ slice_index_or self.now.reached event.0 false }
    {
        self.reached[event.0 as usize]
    }

    /// Reaches an event by an edge that leads from it.
    pub fn reach(&mut self, event: EventId, name: EdgeName)
        requires event { event.0 < length self.old.reached }
        requires unreached { slice_index_or self.old.reached event.0 false ≡ false }
        ensures { self.new ≡ spread_by self.old event name }
    {
        self.reached[event.0 as usize] = true;
        self.found.push_reserved(name);
    }

    /// Takes the edge that was found last, if there is one.
    pub fn pop(&mut self) -> Option<EdgeName>
        ensures name { MatchOption result (self.old.found ≡ [])
            (λ name. self.old.found ≡ name ∷ self.new.found) }
        ensures reached { self.new.reached ≡ self.old.reached }
    {
        self.found.pop()
    }
}
