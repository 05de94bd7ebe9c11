//! Networks of timing constraints.

ghost use Rattle.std.specs.Prelude.{◌≡◌, ◌<◌, ◌≤◌, ◌↔◌, ℕ, IsTrue, IsSome, IsNone, IsSomeAnd, IfOk, IfErr, IfSome, OnOk, OnErr, Some, [], All, length, option_map, slice_get};
ghost use Rattle.itv_base.specs.Range.{IsEnd};
ghost use Rattle.std.specs.List.{AllWithin};
ghost use Rattle.event_graph.specs.Bounds.{IsRay};
ghost use Rattle.event_graph.specs.Step.Rising.{Stays};
ghost use Rattle.event_graph.specs.Times.{IsTime, raised};
ghost use Rattle.event_graph.specs.Network.{Constraint, IsConstraint, IsNet, IsPushFault, cause_at, cause_count_of, earliest, latest, linear, splittable_count, with_constraint, with_range};
ghost use Rattle.event_graph.specs.Satisfying.{Holds, IsFirstBroken, Satisfies};
ghost use Rattle.event_graph.specs.Edges.{IsAlways, cause_choices, edge};

use crate::cause::{Cause, read_ends};
use crate::constraint::Constraint;
use crate::edge::Edge;
use crate::push_fault::PushFault;
use itv_base::{
    EdgeName, EventId, MAX_CAUSES, MAX_CONSTRAINTS, MAX_EVENTS, NoMemory, Range, RuleKind,
};
use std::alloc::Global;
use std::marker::Model;

/// A network: a number of events, named by their numbers from 0, and the constraints on their times,
/// numbered from 0 in the order in which they were added. All ends are in picoseconds.
#[derive(Drop)]
pub struct Network {
    events: u32,
    constraints: Vec<Constraint>,
}

impl Model for Network {
    ghost use Rattle.event_graph.specs.Network.{IsNet, Net};

    ghost Value = { Net };

    ghost view = { λ n. record { events = n.events; constraints = n.constraints.items } };

    ghost invariant = { λ n. IsNet (record { events = n.events; constraints = n.constraints.items }) };
}

impl Network {
    /// A network of a number of events, at most [`MAX_EVENTS`], without constraints.
    pub fn new(alloc: Global, events: u32) -> Result<Network, NoMemory>
        requires events { events ≤ MAX_EVENTS }
        ensures net { IfOk result (λ net. net ≡ record { events = events; constraints = [] }) }
    {
        Ok(Network {
            events,
            constraints: Vec::new(alloc),
        })
    }

    /// The number of events. A call also gives the invariant: the sizes and the ends of ranges are within the limits,
    /// and all constraints are between events of the network.
    pub fn events(&self) -> u32
        ensures count { result ≡ self.now.events }
        ensures net { IsNet self.now }
    {
        self.events
    }

    /// Says the invariant, for a caller that needs it and not the number of events. It does nothing.
    pub fn is_whole(&self)
        ensures net { IsNet self.now }
    {
        self.events();
    }

    /// The number of constraints.
    pub fn len(&self) -> u32
        ensures count { result ≡ length self.now.constraints }
    {
        self.constraints.len() as u32
    }

    /// Whether there are no constraints.
    pub fn is_empty(&self) -> bool
        ensures empty { IsTrue result ↔ (self.now.constraints ≡ []) }
    {
        self.constraints.is_empty()
    }

    /// Adds the constraint that the time of `to` less the time of `from` lies in the range. Both are events of the
    /// network. Returns `Full` with the number of constraints if and only if there are [`MAX_CONSTRAINTS`] of them.
    /// After a refusal the network is unchanged.
    pub fn push_linear(
        &mut self,
        alloc: Global,
        from: EventId,
        to: EventId,
        range: Range,
    ) -> Result<(), PushFault>
        requires from { from.0 < self.old.events }
        requires to { to.0 < self.old.events }
        ensures added { OnOk result (self.new ≡ with_constraint self.old (linear from to range)) }
        ensures room { OnOk result (length self.old.constraints < MAX_CONSTRAINTS) }
        ensures fault { IfErr result (IsPushFault (length self.old.constraints)) }
        ensures unchanged { OnErr result (self.new ≡ self.old) }
    {
        self.push(alloc, RuleKind::Lin, to, &[Cause { event: from, range }])
    }

    /// Adds the constraint that the target comes at the latest of its causes, each delayed within its range: no earlier
    /// than every cause with its low end, and no later than some cause with its high end. There are 1 to [`MAX_CAUSES`]
    /// causes, and all events are of the network. Returns `Full` as [`Network::push_linear`] does. After a refusal the
    /// network is unchanged.
    pub fn push_late(
        &mut self,
        alloc: Global,
        target: EventId,
        causes: &[Cause],
    ) -> Result<(), PushFault>
        requires target { target.0 < self.old.events }
        requires causes { All (λ (c : Cause). c.event.0 < self.old.events) causes.now }
        requires some { 1 ≤ length causes.now }
        requires most { length causes.now ≤ MAX_CAUSES }
        ensures added { OnOk result (self.new ≡ with_constraint self.old (latest target causes.now)) }
        ensures room { OnOk result (length self.old.constraints < MAX_CONSTRAINTS) }
        ensures fault { IfErr result (IsPushFault (length self.old.constraints)) }
        ensures unchanged { OnErr result (self.new ≡ self.old) }
    {
        self.push(alloc, RuleKind::Late, target, causes)
    }

    /// Adds the constraint that the target comes at the earliest of its causes, each delayed within its range: no later
    /// than every cause with its high end, and no earlier than some cause with its low end. There are 1 to
    /// [`MAX_CAUSES`] causes, and all events are of the network. Returns `Full` as [`Network::push_linear`] does. After
    /// a refusal the network is unchanged.
    pub fn push_early(
        &mut self,
        alloc: Global,
        target: EventId,
        causes: &[Cause],
    ) -> Result<(), PushFault>
        requires target { target.0 < self.old.events }
        requires causes { All (λ (c : Cause). c.event.0 < self.old.events) causes.now }
        requires some { 1 ≤ length causes.now }
        requires most { length causes.now ≤ MAX_CAUSES }
        ensures added { OnOk result (self.new ≡ with_constraint self.old (earliest target causes.now)) }
        ensures room { OnOk result (length self.old.constraints < MAX_CONSTRAINTS) }
        ensures fault { IfErr result (IsPushFault (length self.old.constraints)) }
        ensures unchanged { OnErr result (self.new ≡ self.old) }
    {
        self.push(alloc, RuleKind::Early, target, causes)
    }

    /// Adds a copy of a constraint that is there in `net`, given by its number. Both networks have as many events, and there
    /// is room for one more constraint. After a refusal the network is unchanged.
    pub fn push_copy(&mut self, alloc: Global, net: &Network, number: u32) -> Result<(), NoMemory>
        requires there { number < length net.now.constraints }
        requires events { self.old.events ≡ net.now.events }
        requires room { length self.old.constraints < MAX_CONSTRAINTS }
        ensures added { OnOk result (IsSomeAnd (slice_get net.now.constraints number)
            (λ c. self.new ≡ with_constraint self.old c)) }
        ensures unchanged { OnErr result (self.new ≡ self.old) }
    {
        let constraint = &net.constraints[number as usize];
        match self.push(
            alloc,
            constraint.kind,
            constraint.target,
            &constraint.causes,
        ) {
            Ok(()) => Ok(()),
            Err(_) => Err(NoMemory),
        }
    }

    /// Adds a constraint of any kind. A linear one has one cause, and the others have 1 to [`MAX_CAUSES`]. All events are of the
    /// network. Returns `Full` as [`Network::push_linear`] does. After a refusal the network is unchanged.
    pub fn push(
        &mut self,
        alloc: Global,
        kind: RuleKind,
        target: EventId,
        causes: &[Cause],
    ) -> Result<(), PushFault>
        requires { IsConstraint self.old.events
            (record { kind = kind; target = target; causes = causes.now }) }
        ensures added { OnOk result (self.new ≡ with_constraint self.old
            (record { kind = kind; target = target; causes = causes.now })) }
        ensures room { OnOk result (length self.old.constraints < MAX_CONSTRAINTS) }
        ensures fault { IfErr result (IsPushFault (length self.old.constraints)) }
        ensures unchanged { OnErr result (self.new ≡ self.old) }
    {
        let count = self.constraints.len();
        if count == MAX_CONSTRAINTS as usize {
            return Err(PushFault::Full(MAX_CONSTRAINTS));
        }
        read_ends(causes);
        let causes = Vec::from_slice(alloc, causes)?;
        self.constraints.push(Constraint {
            kind,
            target,
            causes,
        })?;
        Ok(())
    }

    /// The kind of a constraint that is there.
    pub fn kind(&self, constraint: u32) -> RuleKind
        requires there { constraint < length self.now.constraints }
        ensures kind { option_map (λ (c : Constraint). c.kind)
            (slice_get self.now.constraints constraint) ≡ Some result }
    {
        self.constraints[constraint as usize].kind
    }

    /// The target of a constraint that is there. The target of a linear constraint is its to-event.
    pub fn target(&self, constraint: u32) -> EventId
        requires there { constraint < length self.now.constraints }
        ensures target { option_map (λ (c : Constraint). c.target)
            (slice_get self.now.constraints constraint) ≡ Some result }
    {
        self.constraints[constraint as usize].target
    }

    /// The number of causes of a latest or earliest constraint that is there, and 0 for a linear one. Each constraint,
    /// even a linear one, has a cause 0.
    pub fn cause_count(&self, constraint: u32) -> u32
        requires there { constraint < length self.now.constraints }
        ensures count { option_map cause_count_of
            (slice_get self.now.constraints constraint) ≡ Some result }
        ensures each { (cause : ℕ) → cause < result → IsSome (cause_at self.now constraint cause) }
        ensures first { IsSome (cause_at self.now constraint 0) }
    {
        let constraint = &self.constraints[constraint as usize];
        match constraint.kind {
            RuleKind::Lin => 0,
            RuleKind::Late | RuleKind::Early => constraint.causes.len() as u32,
        }
    }

    /// A cause of a constraint; it is there. A linear constraint has cause 0 only: its from-event with its range.
    pub fn cause(&self, constraint: u32, cause: u32) -> Cause
        requires there { IsSome (cause_at self.now constraint cause) }
        ensures cause { cause_at self.now constraint cause ≡ Some result }
    {
        let constraint = &self.constraints[constraint as usize];
        constraint.causes[cause as usize]
    }

    /// Whether a cause of a constraint is there. Cause 0 of a linear constraint is its from-event.
    pub fn has_cause(&self, constraint: u32, cause: u32) -> bool
        ensures there { IsTrue result ↔ IsSome (cause_at self.now constraint cause) }
    {
        match self.constraints.get(constraint as usize) {
            None => false,
            Some(constraint) => constraint.causes.get(cause as usize).is_some(),
        }
    }

    /// Sets the range of a cause of a constraint. A linear constraint has cause 0 only: its from-event. Returns whether
    /// that cause is there. If it is not, the network is unchanged. Takes no memory.
    pub fn set_range(&mut self, constraint: u32, cause: u32, range: Range) -> bool
        ensures there { IsTrue result ↔ IsSome (cause_at self.old constraint cause) }
        ensures set { self.new ≡ with_range self.old constraint cause range }
    {
        let place = constraint as usize;
        if self.constraints.len() <= place {
            return false;
        }
        range.low();
        range.high();
        self.constraints[place].set_range(cause, range)
    }

    /// The edge of a name. There is none if and only if the constraint or the cause is not there, or the end on that
    /// side is open. The upper edge leads from the cause to the target, and its weight is the high end. The lower edge
    /// leads back, and its weight is minus the low end.
    pub fn edge(&self, name: EdgeName) -> Option<Edge>
        ensures edge { result ≡ edge self.now name }
        ensures weight { IfSome result (λ e. IsEnd (Some e.weight)) }
        ensures from { IfSome result (λ e. e.from.0 < self.now.events) }
        ensures to { IfSome result (λ e. e.to.0 < self.now.events) }
    {
        let constraint = self.constraints.get(name.constraint as usize)?;
        let cause = constraint.causes.get(name.cause as usize)?;
        cause.edge(constraint.target, name.side)
    }

    /// Whether there is an edge of this name, and it is an always-edge. All satisfying times meet an always-edge,
    /// whatever cause is chosen. Always-edges are on both sides of a linear constraint, on the lower side of a latest
    /// one, on the upper side of an earliest one, and on both sides where there is a single cause.
    pub fn is_always(&self, name: EdgeName) -> bool
        ensures always { IsTrue result ↔ IsAlways self.now name }
    {
        match self.constraints.get(name.constraint as usize) {
            None => false,
            Some(constraint) => constraint.holds_always(name.side) && self.edge(name).is_some(),
        }
    }

    /// Whether the cause choices, the product of the numbers of causes of the latest and earliest constraints, are at
    /// most this many. The product may be too large for a number of 64 bits.
    pub fn choices_fit(&self, most: u64) -> bool
        ensures fit { IsTrue result ↔ (cause_choices self.now.constraints ≤ most) }
    {
        let mut product: u64 = 1;
        for constraint in &self.constraints {
            match product.checked_mul(constraint.choices()) {
                Some(larger) => product = larger,
                None => return false,
            }
        }
        product <= most
    }

    /// The number of constraints with two or more causes to choose from.
    pub fn splittable_count(&self) -> u32
        ensures count { result ≡ splittable_count self.now }
    {
        self.constraints
            .iter()
            .filter(|constraint| constraint.is_splittable())
            .count() as u32
    }

    /// The number of the first constraint that the times break, or none if and only if the times satisfy the network.
    /// The times are in picoseconds, one per event, each below 2^61 in absolute value.
    pub fn broken(&self, times: &[i64]) -> Option<u32>
        requires count { length times.now ≡ self.now.events }
        requires times { All IsTime times.now }
        ensures none { IsNone result ↔ Satisfies times.now self.now }
        ensures first { IfSome result (IsFirstBroken times.now self.now 0) }
    {
        self.broken_from(times, 0)
    }

    /// The number of the first constraint, from `start` on, that the times break, or none if and only if they break
    /// none of these constraints. So a loop that continues after each result goes over the constraints once. The times
    /// are as for [`Network::broken`].
    pub fn broken_from(&self, times: &[i64], start: u32) -> Option<u32>
        requires count { length times.now ≡ self.now.events }
        requires times { All IsTime times.now }
        ensures none { IsNone result
            ↔ AllWithin (Holds times.now) self.now.constraints start (length self.now.constraints) }
        ensures first { IfSome result (IsFirstBroken times.now self.now start) }
    {
        for number in start..self.len() {
            if !self.constraints[number as usize].holds(times) {
                return Some(number);
            }
        }
        None
    }

    /// Whether the times satisfy the network however far the events of a set are raised, all by the same number. There
    /// are a time and a flag for each event, and the times are as for [`Network::broken`].
    pub fn stays(&self, times: &[i64], set: &[bool]) -> bool
        requires count { length times.now ≡ self.now.events }
        requires set { length set.now ≡ self.now.events }
        requires times { All IsTime times.now }
        ensures stays { IsTrue result ↔ ((by : ℕ) → Satisfies (raised set.now by times.now) self.now) }
    {
        all_stay(&self.constraints, times, set)
    }

    /// Whether times and a set of events show that a pair of events of the network is unbounded. The set holds `to` and
    /// not `from`. The times satisfy the network however far the events of the set are raised. The times and the set
    /// are as for [`Network::stays`].
    pub fn is_ray(&self, times: &[i64], set: &[bool], from: EventId, to: EventId) -> bool
        requires count { length times.now ≡ self.now.events }
        requires set { length set.now ≡ self.now.events }
        requires times { All IsTime times.now }
        requires from { from.0 < self.now.events }
        requires to { to.0 < self.now.events }
        ensures ray { IsTrue result ↔ IsRay self.now from to times.now set.now }
    {
        set[to.0 as usize] && !set[from.0 as usize] && self.stays(times, set)
    }
}

// Whether times meet each constraint however far the events of a set are raised.
fn all_stay(constraints: &[Constraint], times: &[i64], set: &[bool]) -> bool
    requires constraints { All (IsConstraint (length times.now)) constraints.now }
    requires times { All IsTime times.now }
    requires set { length set.now ≡ length times.now }
    ensures { IsTrue result ↔ All (Stays times.now set.now) constraints.now }
{
    constraints
        .iter()
        .all(|constraint| constraint.stays(times, set))
}
