//! A queue of events.

ghost use Rattle.std.specs.Prelude.{◌≡◌, ◌+◌, ◌<◌, ◌≤◌, ℕ, true, false, length, replicate, slice_set, IfOk, MatchOption};
ghost use Rattle.diff_bounds.specs.Step.Waiting.{is_waiting};

use crate::heap::{Waiter, lower, rise, sink};
use itv_base::{EventId, NoMemory};
use std::alloc::Global;
use std::marker::Model;

/// The events that wait for their edges to be followed. The event whose label has fallen furthest since it began to wait comes first. An event waits
/// once at most. Contracts see a flag for each event, which says whether it waits, and how many events wait.
///
/// Where labels had settled, and then edges that start at one event were added, this is the order of Dijkstra's algorithm with the old labels as
/// potentials: an event that was taken does not fall again. Only the time that a fall takes rests on this.
#[derive(Drop)]
pub struct Pending {
    heap: Vec<Waiter>,
    // The place in the heap of each event that waits.
    places: Vec<usize>,
    marks: Vec<bool>,
}

impl Model for Pending {
    ghost use Rattle.diff_bounds.specs.Step.Waiting.{IsQueue, PendingView, waiting_in};

    ghost Value = { PendingView };

    ghost view = { waiting_in };

    ghost invariant = { IsQueue };
}

impl Pending {
    /// A queue for a number of events. No event waits yet. Takes all the memory that it ever needs, or answers `NoMemory`.
    pub fn new(alloc: Global, events: u32) -> Result<Pending, NoMemory>
        ensures { IfOk result (λ p. p ≡ record { marks = replicate events false; count = 0 }) }
    {
        let count = events as usize;
        Ok(Pending {
            heap: Vec::with_capacity(alloc, count)?,
            places: Vec::from_elem(alloc, 0, count)?,
            marks: Vec::from_elem(alloc, false, count)?,
        })
    }

    /// Takes all events from the queue.
    pub fn clear(&mut self)
        ensures marks { length self.new.marks ≡ length self.old.marks }
        ensures none { (event : ℕ) → is_waiting self.new.marks event ≡ false }
    {
        while let Some(_event) = self.pop() {}
    }

    /// Lets an event wait. Its label has fallen by `by`, or it takes its place in the queue as if so. If the event waits already, `by` is added to
    /// its fall.
    pub fn push(&mut self, event: EventId, by: i64)
        requires { event.0 < length self.old.marks }
        ensures marks { self.new.marks ≡ slice_set self.old.marks event.0 true }
        ensures count { self.new.count ≤ self.old.count + 1 }
    {
        if self.marks[event.0 as usize] {
            lower(&mut self.heap, &mut self.places, event, by);
        } else {
            self.marks[event.0 as usize] = true;
            let place = self.heap.len();
            self.heap.push_reserved(Waiter { event, fall: by });
            rise(&mut self.heap, &mut self.places, place);
        }
    }

    /// Takes the event whose label has fallen furthest, if there is one.
    pub fn pop(&mut self) -> Option<EventId>
        ensures marks { length self.new.marks ≡ length self.old.marks }
        ensures event { MatchOption result
            ((self.new ≡ self.old) × ((event : ℕ) → is_waiting self.old.marks event ≡ false))
            (λ event. (event.0 < length self.old.marks) × (self.new.marks ≡ slice_set self.old.marks event.0 false)
            × (self.new.count < self.old.count)) }
    {
        if self.heap.is_empty() {
            return None;
        }
        let first = self.heap.swap_remove(0);
        self.marks[first.event.0 as usize] = false;
        if !self.heap.is_empty() {
            sink(&mut self.heap, &mut self.places);
        }
        Some(first.event)
    }
}
