//! Which edges are refuted in a frame, and what a clause allows there.

ghost use Rattle.std.specs.Prelude.{◌≡◌, ◌↔◌, ◌⊎◌, ℤ, pos, neg_ℤ, ◌+ℤ◌, ◌≤ℤ◌, ◌<ℤ◌, IsTrue, All, Contains};
ghost use Rattle.event_graph.specs.declared.edge.Edge.{Edge};
ghost use Rattle.event_graph.specs.Network.{Net};
ghost use Rattle.event_graph.specs.Times.{time_of};
ghost use Rattle.falling.specs.DerivationEnds.{AreLimits};
ghost use Rattle.edge_clauses.specs.Lines.{Forces, GivesLeast, GivesMost, IsNearBound, IsEnded, IsLow, IsEdgeRefuted, LetsFall, LetsRise};
ghost use Rattle.edge_clauses.specs.Step.Judging.{AllowsFall, AllowsRise};
ghost use Rattle.edge_clauses.specs.Step.Standing.{frame_now, goal_of};

use crate::frames::Frames;
use crate::line::EventBound;
use crate::long_sum::LongSum;
use crate::terms::Terms;
use crate::weights::is_same;
use event_graph::Edge;
use itv_base::EventId;

/// Whether a clause allows the upper bound of an event to fall to a value.
pub fn lets_fall(frames: &Frames, terms: Terms, bound: EventBound, clause: &[Edge]) -> bool
    ensures falls { (net : Net) → AreLimits net terms.limits
        → IsTrue result ↔ LetsFall net (goal_of terms) (frame_now frames.now) bound.event bound.value clause.now }
{
    if !is_bound(terms, bound) || !is_lower(frames, bound) {
        return false;
    }
    all_fall(frames, terms, bound, clause)
}

// Whether each edge of a clause is refuted or gives an event an upper bound of at most a value.
fn all_fall(frames: &Frames, terms: Terms, bound: EventBound, clause: &[Edge]) -> bool
    ensures all { IsTrue result ↔ All (AllowsFall (goal_of terms) (frame_now frames.now) bound.event bound.value) clause.now }
{
    clause
        .iter()
        .all(|edge| allows_fall(frames, terms, bound, *edge))
}

// Whether an edge is refuted or gives an event an upper bound of at most a value.
#[tactic(auto, unfolding(crate::specs::Step::Judging::AllowsFall))]
fn allows_fall(frames: &Frames, terms: Terms, bound: EventBound, edge: Edge) -> bool
    ensures { IsTrue result ↔ AllowsFall (goal_of terms) (frame_now frames.now) bound.event bound.value edge }
{
    gives_most(frames, bound, edge) || is_refuted(frames, terms, edge)
}

/// Whether a clause allows the lower bound of an event to rise to a value.
pub fn lets_rise(frames: &Frames, terms: Terms, bound: EventBound, clause: &[Edge]) -> bool
    ensures rises { (net : Net) → AreLimits net terms.limits
        → IsTrue result ↔ LetsRise net (goal_of terms) (frame_now frames.now) bound.event bound.value clause.now }
{
    if !is_bound(terms, bound) || !is_higher(frames, bound) {
        return false;
    }
    all_rise(frames, terms, bound, clause)
}

// Whether each edge of a clause is refuted or gives an event a lower bound of at least a value.
fn all_rise(frames: &Frames, terms: Terms, bound: EventBound, clause: &[Edge]) -> bool
    ensures all { IsTrue result ↔ All (AllowsRise (goal_of terms) (frame_now frames.now) bound.event bound.value) clause.now }
{
    clause
        .iter()
        .all(|edge| allows_rise(frames, terms, bound, *edge))
}

// Whether an edge is refuted or gives an event a lower bound of at least a value.
#[tactic(auto, unfolding(crate::specs::Step::Judging::AllowsRise))]
fn allows_rise(frames: &Frames, terms: Terms, bound: EventBound, edge: Edge) -> bool
    ensures { IsTrue result ↔ AllowsRise (goal_of terms) (frame_now frames.now) bound.event bound.value edge }
{
    gives_least(frames, terms, bound, edge) || is_refuted(frames, terms, edge)
}

/// Whether a clause makes an edge known: all its other edges are refuted.
pub fn forces(frames: &Frames, terms: Terms, edge: Edge, clause: &[Edge]) -> bool
    ensures forces { IsTrue result ↔ Forces (goal_of terms) (frame_now frames.now) edge clause.now }
{
    contains(clause, edge) && are_others_refuted(frames, terms, edge, clause)
}

// Whether each edge of a clause is this one or is refuted.
fn are_others_refuted(frames: &Frames, terms: Terms, edge: Edge, clause: &[Edge]) -> bool
    ensures { IsTrue result ↔ All (λ (other : Edge). (other ≡ edge) ⊎ IsEdgeRefuted (goal_of terms) (frame_now frames.now) other) clause.now }
{
    clause.iter().all(|other| is_same(*other, edge) || is_refuted(frames, terms, *other))
}

/// Whether an edge is one of a list.
pub fn contains(edges: &[Edge], edge: Edge) -> bool
    ensures contains { IsTrue result ↔ Contains edges.now edge }
{
    edges.iter().any(|other| is_same(*other, edge))
}

/// Whether no times that the goal is about are within the bounds.
pub fn has_ended(frames: &Frames, terms: Terms) -> bool
    ensures ended { IsTrue result ↔ IsEnded (goal_of terms) (frame_now frames.now) }
{
    frames.bounds.has_crossed() || is_at_most_claim(frames, terms)
}

// Whether the upper bound of the to-event is at most the claim.
fn is_at_most_claim(frames: &Frames, terms: Terms) -> bool
    ensures { IsTrue result ↔ (time_of (frame_now frames.now).up terms.to ≤ℤ terms.claim) }
{
    frames.bounds.up(terms.to) <= terms.claim
}

// Whether a value is at most one more than the cap, and at least minus that.
fn is_bound(terms: Terms, bound: EventBound) -> bool
    ensures bound { (net : Net) → AreLimits net terms.limits → IsTrue result ↔ IsNearBound net bound.value }
{
    is_at_most(bound, most_of(terms)) && is_at_least(bound, most_of(terms))
}

// One more than the cap.
fn most_of(terms: Terms) -> LongSum
    ensures { result.value ≡ (terms.limits.cap +ℤ pos 1) }
{
    LongSum {
        value: i128::from(terms.limits.cap) + 1,
    }
}

// Whether a value is at most a time.
fn is_at_most(bound: EventBound, most: LongSum) -> bool
    ensures { IsTrue result ↔ (bound.value ≤ℤ most.value) }
{
    i128::from(bound.value) <= most.value
}

// Whether a value is at least minus a time.
fn is_at_least(bound: EventBound, most: LongSum) -> bool
    ensures { IsTrue result ↔ (neg_ℤ most.value ≤ℤ bound.value) }
{
    -i128::from(bound.value) <= most.value
}

// Whether a value is below the upper bound of an event.
fn is_lower(frames: &Frames, bound: EventBound) -> bool
    ensures { IsTrue result ↔ (bound.value <ℤ time_of (frame_now frames.now).up bound.event) }
{
    bound.value < frames.bounds.up(bound.event)
}

// Whether a value is above the lower bound of an event.
fn is_higher(frames: &Frames, bound: EventBound) -> bool
    ensures { IsTrue result ↔ (time_of (frame_now frames.now).low bound.event <ℤ bound.value) }
{
    frames.bounds.low(bound.event) < bound.value
}

// Whether an edge is not met.
fn is_refuted(frames: &Frames, terms: Terms, edge: Edge) -> bool
    ensures refuted { IsTrue result ↔ IsEdgeRefuted (goal_of terms) (frame_now frames.now) edge }
{
    is_after(frames, terms, edge.to, sum_along(frames, edge))
        || is_falling_loop(edge)
        || frames.known.has_excluding(edge)
}

// Whether an edge leads from an event to itself with a weight below 0.
fn is_falling_loop(edge: Edge) -> bool
    ensures { IsTrue result ↔ ((edge.from ≡ edge.to) × (edge.weight <ℤ pos 0)) }
{
    edge.from == edge.to && edge.weight < 0
}

// Whether an edge gives an event an upper bound of at most a value.
fn gives_most(frames: &Frames, bound: EventBound, edge: Edge) -> bool
    ensures most { IsTrue result ↔ GivesMost (frame_now frames.now) bound.event bound.value edge }
{
    edge.to == bound.event && is_reached(bound, sum_along(frames, edge))
}

// Whether a time is at most a value.
fn is_reached(bound: EventBound, sum: LongSum) -> bool
    ensures { IsTrue result ↔ (sum.value ≤ℤ bound.value) }
{
    sum.value <= i128::from(bound.value)
}

// Whether an edge gives an event a lower bound of at least a value.
fn gives_least(frames: &Frames, terms: Terms, bound: EventBound, edge: Edge) -> bool
    ensures least { IsTrue result ↔ GivesLeast (goal_of terms) (frame_now frames.now) bound.event bound.value edge }
{
    edge.from == bound.event && is_after(frames, terms, edge.to, before(bound, edge))
}

// The upper bound of the from-event of an edge, and its weight.
fn sum_along(frames: &Frames, edge: Edge) -> LongSum
    ensures sum { result.value ≡ (time_of (frame_now frames.now).up edge.from +ℤ edge.weight) }
{
    LongSum {
        value: i128::from(frames.bounds.up(edge.from)) + i128::from(edge.weight),
    }
}

// One less than a value and the weight of an edge.
fn before(bound: EventBound, edge: Edge) -> LongSum
    ensures before { (result.value +ℤ pos 1) ≡ (bound.value +ℤ edge.weight) }
{
    LongSum {
        value: i128::from(bound.value) + i128::from(edge.weight) - 1,
    }
}

// Whether an event comes after a time: by its lower bound, or since the goal is about separations above its claim.
fn is_after(frames: &Frames, terms: Terms, event: EventId, sum: LongSum) -> bool
    ensures after { IsTrue result ↔ IsLow (goal_of terms) (frame_now frames.now) event (sum.value +ℤ pos 1) }
{
    is_below_low(frames, event, sum) || (event == terms.to && is_within_claim(terms, sum))
}

// Whether a time is before the lower bound of an event.
fn is_below_low(frames: &Frames, event: EventId, sum: LongSum) -> bool
    ensures { IsTrue result ↔ ((sum.value +ℤ pos 1) ≤ℤ time_of (frame_now frames.now).low event) }
{
    sum.value < i128::from(frames.bounds.low(event))
}

// Whether a time is at most the claim.
fn is_within_claim(terms: Terms, sum: LongSum) -> bool
    ensures { IsTrue result ↔ ((sum.value +ℤ pos 1) ≤ℤ (terms.claim +ℤ pos 1)) }
{
    sum.value <= i128::from(terms.claim)
}
