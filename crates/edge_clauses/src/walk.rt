//! Walks back from an event.

ghost use Rattle.std.specs.Prelude.{◌≡◌, ◌↔◌, ◌⊎◌, ◌<◌, Some, pos, ◌+ℤ◌, ◌≤ℤ◌, ◌<ℤ◌, length, slice_get, IsTrue, IsFalse, Any, IfSome, IfNone, IfOk};
ghost use Rattle.edge_clauses.specs.declared.walk.Walk.{Walk};
ghost use Rattle.edge_clauses.specs.Clauses.{IsAddable};
ghost use Rattle.edge_clauses.specs.Lines.{IsClauseLoop, IsCovered};
ghost use Rattle.edge_clauses.specs.Step.Walking.{AreOthersCovered, IsWide, StepsIn};

use crate::basis::WalkStep;
use crate::clause_room::fill;
use crate::edge_list::EdgeList;
use crate::judge::contains;
use crate::long_sum::LongSum;
use crate::weights::are_addable;
use event_graph::{Edge, Network};
use itv_base::{EventId, NoMemory};

/// A walk back from an event: the event comes at most `sum` picoseconds after `at`, unless an edge of the clause that is to be kept is met.
#[derive(Clone, Copy)]
pub struct Walk {
    pub at: EventId,
    pub sum: i64,
}

/// Whether steps back from an event lead back to it with a sum below 0, so that times meet an edge of the clause that is to be kept.
pub fn is_loop(
    net: &Network,
    kept: &[EdgeList],
    event: EventId,
    steps: &[WalkStep],
    shown: &[Edge],
    room: &mut Vec<Edge>,
) -> Result<bool, NoMemory>
    ensures shows { IfOk result (λ is. IsTrue is → IsClauseLoop net.now kept.now event steps.now shown.now) }
    ensures not { IfOk result (λ is. IsFalse is → IsClauseLoop net.now kept.now event steps.now shown.now → ⊥) }
{
    if !are_addable(shown) {
        return Ok(false);
    }
    let mut walk = Walk { at: event, sum: 0 };
    for number in 0..steps.len() {
        let step = step_in(steps, number);
        if !fill(net, kept, step.basis, room)? {
            return Ok(false);
        }
        match stepped(event, shown, walk, step.through, room) {
            Some(next) => walk = next,
            None => return Ok(false),
        }
    }
    Ok(has_come_back(event, walk))
}

// The step at a place.
fn step_in(steps: &[WalkStep], place: usize) -> WalkStep
    requires { place < length steps.now }
    ensures { slice_get steps.now place ≡ Some result }
{
    steps[place]
}

// Whether a walk is at its event again, with a sum below 0.
fn has_come_back(event: EventId, walk: Walk) -> bool
    ensures { IsTrue result ↔ ((walk.at ≡ event) × (walk.sum <ℤ pos 0)) }
{
    walk.at == event && walk.sum < 0
}

// The walk after a step through an edge of a clause, or none if the clause allows no such step.
fn stepped(
    event: EventId,
    shown: &[Edge],
    walk: Walk,
    through: u32,
    clause: &[Edge],
) -> Option<Walk>
    ensures next { IfSome result (λ next. StepsIn event shown.now walk through clause.now next) }
    ensures none { IfNone result ((next : Walk) → StepsIn event shown.now walk through clause.now next → ⊥) }
{
    if clause.len() <= through as usize {
        return None;
    }
    let edge = edge_in(clause, through as usize);
    if edge.to != walk.at || !are_others_covered(event, shown, walk, through, clause) {
        return None;
    }
    led_on(walk, edge)
}

// The walk after an edge, or none if its sum is too great to be added to.
fn led_on(walk: Walk, edge: Edge) -> Option<Walk>
    ensures next { IfSome result (λ next. (next ≡ record { at = edge.from; sum = walk.sum +ℤ edge.weight }) × IsAddable next.sum) }
    ensures none { IfNone result (IsAddable (walk.sum +ℤ edge.weight) → ⊥) }
{
    match walk.sum.checked_add(edge.weight) {
        Some(sum) if is_near(sum) => Some(Walk { at: edge.from, sum }),
        _ => None,
    }
}

// Whether a sum can be added to.
fn is_near(sum: i64) -> bool
    ensures { IsTrue result ↔ IsAddable sum }
{
    -1_152_921_504_606_846_976 <= sum && sum <= 1_152_921_504_606_846_976
}

// Whether the edges of a clause other than the one that the step goes through are covered.
fn are_others_covered(
    event: EventId,
    shown: &[Edge],
    walk: Walk,
    through: u32,
    clause: &[Edge],
) -> bool
    ensures covered { IsTrue result ↔ AreOthersCovered event shown.now walk through clause.now }
{
    for place in 0..clause.len() {
        let is_through = is_place(through, place);
        if !is_other_covered(event, shown, walk, is_through, edge_in(clause, place)) {
            return false;
        }
    }
    true
}

// Whether a step goes through the edge at a place.
fn is_place(through: u32, place: usize) -> bool
    ensures { IsTrue result ↔ (place ≡ through) }
{
    place == through as usize
}

// The edge at a place.
fn edge_in(clause: &[Edge], place: usize) -> Edge
    requires { place < length clause.now }
    ensures { slice_get clause.now place ≡ Some result }
{
    clause[place]
}

// Whether the step goes through an edge, or the edge is covered.
fn is_other_covered(
    event: EventId,
    shown: &[Edge],
    walk: Walk,
    is_through: bool,
    edge: Edge,
) -> bool
    ensures { IsTrue result ↔ (IsTrue is_through ⊎ IsCovered event walk shown.now edge) }
{
    is_through || is_covered(event, shown, walk, edge)
}

// Whether times that meet an edge meet an edge of the clause that is shown: that edge itself, or a wider one from its from-event to the event of the walk.
fn is_covered(event: EventId, shown: &[Edge], walk: Walk, edge: Edge) -> bool
    ensures covered { IsTrue result ↔ IsCovered event walk shown.now edge }
{
    contains(shown, edge) || (edge.to == walk.at && has_wide(event, shown, walk, edge))
}

// Whether the clause that is shown has an edge that is as wide as this edge after the walk.
fn has_wide(event: EventId, shown: &[Edge], walk: Walk, edge: Edge) -> bool
    ensures wide { IsTrue result ↔ Any (IsWide event walk edge) shown.now }
{
    shown.iter().any(|wide| is_wide(event, walk, edge, *wide))
}

// Whether an edge is as wide as another after the walk.
fn is_wide(event: EventId, walk: Walk, edge: Edge, wide: Edge) -> bool
    ensures { IsTrue result ↔ IsWide event walk edge wide }
{
    wide.from == edge.from && wide.to == event && is_within(sum_after(walk, edge), wide)
}

// The sum of a walk and an edge after it.
fn sum_after(walk: Walk, edge: Edge) -> LongSum
    ensures { result.value ≡ (walk.sum +ℤ edge.weight) }
{
    LongSum {
        value: i128::from(walk.sum) + i128::from(edge.weight),
    }
}

// Whether a sum is at most the weight of an edge.
fn is_within(sum: LongSum, wide: Edge) -> bool
    ensures { IsTrue result ↔ (sum.value ≤ℤ wide.weight) }
{
    sum.value <= i128::from(wide.weight)
}
