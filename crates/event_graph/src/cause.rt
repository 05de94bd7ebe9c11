//! Causes of constraints.

ghost use Rattle.std.specs.Prelude.{◌≡◌, ◌<◌, ◌↔◌, ◌+ℤ◌, IsTrue, IfSome, length, All};
ghost use Rattle.itv_base.specs.Range.{IsEnd};
ghost use Rattle.event_graph.specs.Network.{AreEnds};
ghost use Rattle.event_graph.specs.Times.{IsTime};

use crate::edge::Edge;
use crate::negated::negated_weight;
use itv_base::{EventId, Range, Side};

/// A cause of a constraint: an event, and the range of the delay from it to the target, in picoseconds.
#[derive(Clone, Copy)]
pub struct Cause {
    pub event: EventId,
    pub range: Range,
}

impl Cause {
    ghost use Rattle.event_graph.specs.Satisfying.{IsAfter, IsBefore};
    ghost use Rattle.event_graph.specs.Step.Rising.{StaysAfter, StaysBefore};
    ghost use Rattle.event_graph.specs.Edges.{side_edge};

    // Whether the target comes no earlier than the cause and its low end.
    pub(crate) fn low_allows(&self, times: &[i64], target: EventId) -> bool
        requires cause { self.now.event.0 < length times.now }
        requires target { target.0 < length times.now }
        requires times { All IsTime times.now }
        ensures { IsTrue result ↔ IsAfter times.now target self.now }
    {
        let time = times[self.event.0 as usize];
        let limit = times[target.0 as usize];
        self.range
            .low()
            .is_none_or(|low| delayed(time, low) <= limit)
    }

    // Whether the target comes no later than the cause and its high end.
    pub(crate) fn high_allows(&self, times: &[i64], target: EventId) -> bool
        requires cause { self.now.event.0 < length times.now }
        requires target { target.0 < length times.now }
        requires times { All IsTime times.now }
        ensures { IsTrue result ↔ IsBefore times.now target self.now }
    {
        let time = times[self.event.0 as usize];
        let limit = times[target.0 as usize];
        self.range
            .high()
            .is_none_or(|high| limit <= delayed(time, high))
    }

    // Whether the target comes no earlier than the cause and its low end, however far the events of a set are raised.
    pub(crate) fn low_stays(&self, times: &[i64], set: &[bool], target: EventId) -> bool
        requires cause { self.now.event.0 < length times.now }
        requires target { target.0 < length times.now }
        requires set { length set.now ≡ length times.now }
        requires times { All IsTime times.now }
        ensures { IsTrue result ↔ StaysAfter times.now set.now target self.now }
    {
        self.low_allows(times, target)
            && (self.range.low().is_none() || !set[self.event.0 as usize] || set[target.0 as usize])
    }

    // Whether the target comes no later than the cause and its high end, however far the events of a set are raised.
    pub(crate) fn high_stays(&self, times: &[i64], set: &[bool], target: EventId) -> bool
        requires cause { self.now.event.0 < length times.now }
        requires target { target.0 < length times.now }
        requires set { length set.now ≡ length times.now }
        requires times { All IsTime times.now }
        ensures { IsTrue result ↔ StaysBefore times.now set.now target self.now }
    {
        self.high_allows(times, target)
            && (self.range.high().is_none()
                || !set[target.0 as usize]
                || set[self.event.0 as usize])
    }

    // The edge of the cause on one side, or none where that end is open.
    pub(crate) fn edge(&self, target: EventId, side: Side) -> Option<Edge>
        ensures edge { result ≡ side_edge side target self.now }
        ensures within { IfSome result (λ e. IsEnd (Some e.weight)) }
    {
        match side {
            Side::Upper => Some(Edge {
                from: self.event,
                to: target,
                weight: self.range.high()?,
            }),
            Side::Lower => Some(Edge {
                from: target,
                to: self.event,
                weight: negated_weight(self.range.low()?),
            }),
        }
    }
}

// Reads the ends of the ranges of causes. So contracts know that the ends are within the limit.
pub(crate) fn read_ends(causes: &[Cause])
    ensures { All (λ (c : Cause). AreEnds c.range) causes.now }
{
    for cause in causes {
        cause.range.low();
        cause.range.high();
    }
}

// The time that comes a delay after another.
fn delayed(time: i64, delay: i64) -> i64
    requires time { IsTime time }
    requires delay { IsEnd (Some delay) }
    ensures { result ≡ time +ℤ delay }
{
    time + delay
}
