//! Bounds of events from both sides.

ghost use Rattle.std.specs.Prelude.{◌≡◌, ◌↔◌, ◌⊎◌, ◌+◌, ◌<◌, ℤ, pos, neg_ℤ, ◌≤ℤ◌, ◌<ℤ◌, IsTrue, IfOk, OnOk, OnErr, Some, length, replicate, set, slice_get, take};
ghost use Rattle.event_graph.specs.Times.{time_of};
ghost use Rattle.edge_clauses.specs.declared.bounds.BoundSide.TheVariants.{Low, Up};
ghost use Rattle.edge_clauses.specs.Step.Bounding.{HasCrossed, undone, with_bound};

use crate::line::EventBound;
use event_graph::time_of;
use itv_base::{EventId, NoMemory};
use std::alloc::Global;
use std::marker::Model;

/// A side from which the time of an event is bounded.
#[derive(Clone, Copy)]
pub enum BoundSide {
    Up,
    Low,
}

/// A bound of an event, in picoseconds, before it changed.
#[derive(Clone, Copy)]
pub struct BoundChange {
    pub side: BoundSide,
    pub event: EventId,
    pub old: i64,
}

/// An upper and a lower bound of each event, in picoseconds after the from-event, and what they were when the block opened.
#[derive(Drop)]
pub struct EventBounds {
    up: Vec<i64>,
    low: Vec<i64>,
    changes: Vec<BoundChange>,
    has_crossed: bool,
    had_crossed: bool,
}

impl Model for EventBounds {
    ghost use Rattle.edge_clauses.specs.Step.Bounding.{AreCrossedAs, EventBoundsView, pair_of};

    ghost Value = { EventBoundsView };

    ghost view = { λ b. pair_of b.changes.items b.up.items b.low.items };

    ghost invariant = { λ b. AreCrossedAs b.has_crossed b.had_crossed (pair_of b.changes.items b.up.items b.low.items) };
}

impl EventBounds {
    /// The from-event at 0, and all others at most at the cap and at least at minus the cap.
    pub fn new(alloc: Global, events: u32, from: EventId, cap: i64) -> Result<EventBounds, NoMemory>
        requires from { from.0 < events }
        requires least { pos 0 ≤ℤ cap }
        ensures now { IfOk result (λ b. b.now ≡ record { up = set (replicate events cap) from.0 (pos 0); low = set (replicate events (neg_ℤ cap)) from.0 (pos 0) }) }
        ensures outside { IfOk result (λ b. b.outside ≡ b.now) }
    {
        let place = from.0 as usize;
        let mut up = vec![in alloc; cap; events as usize]?;
        up[place] = 0;
        let mut low = vec![in alloc; -cap; events as usize]?;
        low[place] = 0;
        Ok(EventBounds {
            up,
            low,
            changes: Vec::new(alloc),
            has_crossed: false,
            had_crossed: false,
        })
    }

    /// The upper bound of an event, or 0 if there is no such event.
    pub fn up(&self, event: EventId) -> i64
        ensures up { result ≡ time_of self.now.now.up event }
    {
        time_of(&self.up, event)
    }

    /// The lower bound of an event, or 0 if there is no such event.
    pub fn low(&self, event: EventId) -> i64
        ensures low { result ≡ time_of self.now.now.low event }
    {
        time_of(&self.low, event)
    }

    /// Whether the upper bound of some event is below its lower bound.
    pub fn has_crossed(&self) -> bool
        ensures crossed { IsTrue result ↔ HasCrossed self.now.now }
    {
        self.has_crossed
    }

    /// Sets a lower upper bound of an event. Does nothing if there is no such event.
    pub fn lower(&mut self, bound: EventBound) -> Result<(), NoMemory>
        requires lower { bound.value <ℤ time_of self.old.now.up bound.event }
        ensures now { OnOk result (self.new.now ≡ with_bound Up bound.event bound.value self.old.now) }
        ensures outside { OnOk result (self.new.outside ≡ self.old.outside) }
        ensures kept { OnErr result (self.new ≡ self.old) }
    {
        let place = bound.event.0 as usize;
        if self.up.len() <= place {
            return Ok(());
        }
        self.changes
            .push(change_of(&self.up, BoundSide::Up, bound))?;
        set_to(&mut self.up, bound);
        self.has_crossed = is_either(self.has_crossed, is_above(&self.low, bound));
        Ok(())
    }

    /// Sets a higher lower bound of an event. Does nothing if there is no such event.
    pub fn raise(&mut self, bound: EventBound) -> Result<(), NoMemory>
        requires higher { time_of self.old.now.low bound.event <ℤ bound.value }
        ensures now { OnOk result (self.new.now ≡ with_bound Low bound.event bound.value self.old.now) }
        ensures outside { OnOk result (self.new.outside ≡ self.old.outside) }
        ensures kept { OnErr result (self.new ≡ self.old) }
    {
        let place = bound.event.0 as usize;
        if self.low.len() <= place {
            return Ok(());
        }
        self.changes
            .push(change_of(&self.low, BoundSide::Low, bound))?;
        set_to(&mut self.low, bound);
        self.has_crossed = is_either(self.has_crossed, is_below(&self.up, bound));
        Ok(())
    }

    /// Takes the bounds as they are for those outside of the block.
    pub fn keep(&mut self)
        ensures now { self.new.now ≡ self.old.now }
        ensures outside { self.new.outside ≡ self.old.now }
    {
        self.changes.clear();
        self.had_crossed = self.has_crossed;
    }

    /// Goes back to the bounds outside of the block.
    pub fn undo(&mut self)
        ensures now { self.new.now ≡ self.old.outside }
        ensures outside { self.new.outside ≡ self.old.outside }
    {
        put_back(&self.changes, &mut self.up, &mut self.low);
        self.changes.clear();
        self.has_crossed = self.had_crossed;
    }
}

// The bound of an event, before it changes on a side.
fn change_of(values: &[i64], side: BoundSide, bound: EventBound) -> BoundChange
    ensures { result ≡ record { side = side; event = bound.event; old = time_of values.now bound.event } }
{
    BoundChange {
        side,
        event: bound.event,
        old: time_of(values, bound.event),
    }
}

// Whether the value of an event is above a bound.
fn is_above(values: &[i64], bound: EventBound) -> bool
    ensures { IsTrue result ↔ (bound.value <ℤ time_of values.now bound.event) }
{
    bound.value < time_of(values, bound.event)
}

// Whether the value of an event is below a bound.
fn is_below(values: &[i64], bound: EventBound) -> bool
    ensures { IsTrue result ↔ (time_of values.now bound.event <ℤ bound.value) }
{
    time_of(values, bound.event) < bound.value
}

// Whether one of two is true.
fn is_either(is_one: bool, is_other: bool) -> bool
    ensures { IsTrue result ↔ (IsTrue is_one ⊎ IsTrue is_other) }
{
    is_one || is_other
}

// Sets the value of an event.
fn set_to(values: &mut Vec<i64>, bound: EventBound)
    requires { bound.event.0 < length values.old.items }
    ensures { values.new.items ≡ set values.old.items bound.event.0 bound.value }
{
    values[bound.event.0 as usize] = bound.value;
}

// Puts old bounds back, the latest first.
fn put_back(changes: &[BoundChange], up: &mut [i64], low: &mut [i64])
    ensures { record { up = up.new; low = low.new } ≡ undone changes.now (record { up = up.old; low = low.old }) }
{
    let count = changes.len();
    for done in 0..count {
        put_at(changes, count - 1 - done, up, low);
    }
}

// Puts the old bound at a place back.
fn put_at(changes: &[BoundChange], place: usize, up: &mut [i64], low: &mut [i64])
    requires { place < length changes.now }
    ensures { undone (take place changes.now) (record { up = up.new; low = low.new }) ≡ undone (take (place + 1) changes.now) (record { up = up.old; low = low.old }) }
{
    put(change_at(changes, place), up, low);
}

// The change at a place.
fn change_at(changes: &[BoundChange], place: usize) -> BoundChange
    requires { place < length changes.now }
    ensures { slice_get changes.now place ≡ Some result }
{
    changes[place]
}

// Puts an old bound back.
fn put(change: BoundChange, up: &mut [i64], low: &mut [i64])
    ensures { record { up = up.new; low = low.new } ≡ with_bound change.side change.event change.old (record { up = up.old; low = low.old }) }
{
    match change.side {
        BoundSide::Up => write(up, change),
        BoundSide::Low => write(low, change),
    }
}

// Sets the value of an event. Does nothing if there is no such event.
fn write(values: &mut [i64], change: BoundChange)
    ensures { values.new ≡ set values.old change.event.0 change.old }
{
    let place = change.event.0 as usize;
    if place < values.len() {
        values[place] = change.old;
    }
}
