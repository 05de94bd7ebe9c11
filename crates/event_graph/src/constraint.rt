//! A constraint of a network, as it is kept.

ghost use Rattle.std.specs.Prelude.{◌≡◌, ◌<◌, ◌≤◌, ◌↔◌, IsTrue, IsSome, length, All, Any, nat_lt, slice_get};
ghost use Rattle.event_graph.specs.Step.Rising.{StaysAfter, StaysBefore};
ghost use Rattle.event_graph.specs.Times.{IsTime};

use crate::cause::Cause;
use itv_base::{EventId, Range, RuleKind, Side};
use std::marker::Model;

/// A constraint: its kind, its target and its causes. A linear one has its from-event as its one cause.
#[derive(Drop)]
pub struct Constraint {
    pub kind: RuleKind,
    pub target: EventId,
    pub causes: Vec<Cause>,
}

impl Model for Constraint {
    ghost use Rattle.event_graph.specs.Network.{Constraint};

    ghost Value = { Constraint };

    ghost view = { λ c. record { kind = c.kind; target = c.target; causes = c.causes.items } };
}

impl Constraint {
    ghost use Rattle.event_graph.specs.Network.{IsCauseCount, IsConstraint, cause_count_of, causes_with};
    ghost use Rattle.event_graph.specs.Satisfying.{Holds};
    ghost use Rattle.event_graph.specs.Step.Rising.{Stays};
    ghost use Rattle.event_graph.specs.Edges.{choices_of, holds_always};

    /// Whether times meet the constraint.
    pub fn holds(&self, times: &[i64]) -> bool
        requires constraint { IsConstraint (length times.now) self.now }
        requires times { All IsTime times.now }
        ensures { IsTrue result ↔ Holds times.now self.now }
    {
        let target = self.target;
        let causes = self.causes.as_slice();
        match self.kind {
            RuleKind::Lin => {
                causes.iter().all(|cause| cause.low_allows(times, target))
                    && causes.iter().all(|cause| cause.high_allows(times, target))
            }
            RuleKind::Late => {
                causes.iter().all(|cause| cause.low_allows(times, target))
                    && causes.iter().any(|cause| cause.high_allows(times, target))
            }
            RuleKind::Early => {
                causes.iter().all(|cause| cause.high_allows(times, target))
                    && causes.iter().any(|cause| cause.low_allows(times, target))
            }
        }
    }

    /// Whether times meet the constraint however far the events of a set are raised.
    pub fn stays(&self, times: &[i64], set: &[bool]) -> bool
        requires constraint { IsConstraint (length times.now) self.now }
        requires times { All IsTime times.now }
        requires set { length set.now ≡ length times.now }
        ensures { IsTrue result ↔ Stays times.now set.now self.now }
    {
        let target = self.target;
        let causes = self.causes.as_slice();
        match self.kind {
            RuleKind::Lin => {
                all_after(causes, times, set, target) && all_before(causes, times, set, target)
            }
            RuleKind::Late => {
                all_after(causes, times, set, target) && some_before(causes, times, set, target)
            }
            RuleKind::Early => {
                all_before(causes, times, set, target) && some_after(causes, times, set, target)
            }
        }
    }

    /// Sets the range of a cause. Returns whether that cause is there. If it is not, the constraint is unchanged.
    pub fn set_range(&mut self, cause: u32, range: Range) -> bool
        ensures there { IsTrue result ↔ IsSome (slice_get self.old.causes cause) }
        ensures set { self.new ≡ record self.old {
          causes = causes_with self.old.causes cause range (slice_get self.old.causes cause);
        } }
    {
        let place = cause as usize;
        if self.causes.len() <= place {
            return false;
        }
        self.causes[place].range = range;
        true
    }

    /// Whether there are two or more causes to choose from.
    pub fn is_splittable(&self) -> bool
        ensures { result ≡ nat_lt 1 (cause_count_of self.now) }
    {
        self.kind != RuleKind::Lin && 1 < self.causes.len()
    }

    /// Whether satisfying times meet the edges of every cause on a side.
    pub fn holds_always(&self, side: Side) -> bool
        ensures { result ≡ holds_always self.now.kind (length self.now.causes) side }
    {
        let is_single = self.causes.len() == 1;
        match self.kind {
            RuleKind::Lin => true,
            RuleKind::Late => side == Side::Lower || is_single,
            RuleKind::Early => side == Side::Upper || is_single,
        }
    }

    /// The number of causes to choose from: all causes of a latest or earliest constraint, and 1 for a linear one.
    pub fn choices(&self) -> u64
        requires { IsCauseCount self.now.kind (length self.now.causes) }
        ensures value { result ≡ choices_of self.now.kind (length self.now.causes) }
        ensures some { 1 ≤ result }
    {
        match self.kind {
            RuleKind::Lin => 1,
            RuleKind::Late | RuleKind::Early => self.causes.len() as u64,
        }
    }
}

// Whether the target stays after each cause.
fn all_after(causes: &[Cause], times: &[i64], set: &[bool], target: EventId) -> bool
    requires causes { All (λ (c : Cause). c.event.0 < length times.now) causes.now }
    requires target { target.0 < length times.now }
    requires set { length set.now ≡ length times.now }
    requires times { All IsTime times.now }
    ensures { IsTrue result ↔ All (StaysAfter times.now set.now target) causes.now }
{
    causes
        .iter()
        .all(|cause| cause.low_stays(times, set, target))
}

// Whether the target stays before each cause.
fn all_before(causes: &[Cause], times: &[i64], set: &[bool], target: EventId) -> bool
    requires causes { All (λ (c : Cause). c.event.0 < length times.now) causes.now }
    requires target { target.0 < length times.now }
    requires set { length set.now ≡ length times.now }
    requires times { All IsTime times.now }
    ensures { IsTrue result ↔ All (StaysBefore times.now set.now target) causes.now }
{
    causes
        .iter()
        .all(|cause| cause.high_stays(times, set, target))
}

// Whether the target stays after some cause.
fn some_after(causes: &[Cause], times: &[i64], set: &[bool], target: EventId) -> bool
    requires causes { All (λ (c : Cause). c.event.0 < length times.now) causes.now }
    requires target { target.0 < length times.now }
    requires set { length set.now ≡ length times.now }
    requires times { All IsTime times.now }
    ensures { IsTrue result ↔ Any (StaysAfter times.now set.now target) causes.now }
{
    causes
        .iter()
        .any(|cause| cause.low_stays(times, set, target))
}

// Whether the target stays before some cause.
fn some_before(causes: &[Cause], times: &[i64], set: &[bool], target: EventId) -> bool
    requires causes { All (λ (c : Cause). c.event.0 < length times.now) causes.now }
    requires target { target.0 < length times.now }
    requires set { length set.now ≡ length times.now }
    requires times { All IsTime times.now }
    ensures { IsTrue result ↔ Any (StaysBefore times.now set.now target) causes.now }
{
    causes
        .iter()
        .any(|cause| cause.high_stays(times, set, target))
}
