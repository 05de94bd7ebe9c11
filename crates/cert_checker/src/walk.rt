//! Paths and loops of edges that close a case.

ghost use Rattle.std.specs.Prelude.{◌≡◌, ◌<◌, ◌≤◌, ◌^◌, ℤ, pos, neg_ℤ, ◌+ℤ◌, ◌≤ℤ◌, Some, IsSome, IfOk, length};
ghost use Rattle.itv_base.specs.Range.{IsEnd};
ghost use Rattle.event_graph.specs.Edges.{edge};
ghost use Rattle.event_graph.specs.Proof.{path_sum};
ghost use Rattle.event_graph.specs.Cases.{IsCase};
ghost use Rattle.cert_checker.specs.Checking.{AnswersFault, goal_view};
ghost use Rattle.cert_checker.specs.Faults.{fault_of_edge, fault_of_length, fault_of_loop, fault_of_path, fault_of_walk, is_choice_side, is_usable, loop_begin};

use crate::check_fault::CheckFault;
use crate::goal::Goal;
use event_graph::{Decisions, Edge, Network};
use itv_base::{EdgeName, EventId, MAX_EVENTS, RuleKind, Side};

/// Whether a path closes a case. The goal is a bound, and there are no more edges than events. The path leads from the
/// from-event of the goal to its to-event along edges that may be used, and its sum is at most the value of the goal.
pub fn check_path(
    net: &Network,
    chosen: &Decisions,
    goal: Goal,
    names: &[EdgeName],
) -> Result<(), CheckFault>
    requires case { IsCase net.now chosen.now.chosen }
    ensures { AnswersFault result (fault_of_path net.now (goal_view goal) chosen.now.chosen names.now) }
{
    match goal {
        Goal::Nothing => Err(CheckFault::PathHere),
        Goal::Bound { from, to, value } => {
            check_length(net, names)?;
            let sum = check_walk(net, chosen, from, to, names)?;
            if sum <= value {
                Ok(())
            } else {
                Err(CheckFault::SumTooGreat(sum))
            }
        }
    }
}

/// Whether a loop closes a case. There are no more edges than events. The loop leads back to where it begins along
/// edges that may be used, and its sum is negative.
pub fn check_loop(net: &Network, chosen: &Decisions, names: &[EdgeName]) -> Result<(), CheckFault>
    requires case { IsCase net.now chosen.now.chosen }
    ensures { AnswersFault result (fault_of_loop net.now chosen.now.chosen names.now) }
{
    check_length(net, names)?;
    let begin = loop_begin(net, names);
    let sum = check_walk(net, chosen, begin, begin, names)?;
    if sum < 0 {
        Ok(())
    } else {
        Err(CheckFault::NotNegative(sum))
    }
}

// Refuses more edges than events.
fn check_length(net: &Network, names: &[EdgeName]) -> Result<(), CheckFault>
    ensures fault { AnswersFault result (fault_of_length net.now names.now) }
    ensures few { IfOk result (λ _. length names.now ≤ MAX_EVENTS) }
{
    if names.len() <= net.events() as usize {
        Ok(())
    } else {
        Err(CheckFault::TooLong(names.len()))
    }
}

// Where a loop begins.
fn loop_begin(net: &Network, names: &[EdgeName]) -> EventId
    ensures { result ≡ loop_begin net.now names.now }
{
    match names.first() {
        None => EventId(0),
        Some(name) => match net.edge(*name) {
            None => EventId(0),
            Some(edge) => edge.from,
        },
    }
}

// The sum of the weights of edges, which lead from an event to an event and may be used.
fn check_walk(
    net: &Network,
    chosen: &Decisions,
    from: EventId,
    to: EventId,
    names: &[EdgeName],
) -> Result<i64, CheckFault>
    requires case { IsCase net.now chosen.now.chosen }
    requires few { length names.now ≤ MAX_EVENTS }
    ensures sum { IfOk result (λ sum. sum ≡ path_sum net.now names.now) }
    ensures fault { AnswersFault result (fault_of_walk net.now chosen.now.chosen to 0 from names.now) }
{
    let mut at = from;
    let mut sum = 0;
    for (place, name) in names.iter().enumerate() {
        let edge = check_edge(net, chosen, place, at, *name)?;
        sum = plus(sum, edge.weight);
        at = edge.to;
    }
    if at == to {
        Ok(sum)
    } else {
        Err(CheckFault::Broken(names.len()))
    }
}

// The sum of the weights so far, and one weight more.
fn plus(sum: i64, weight: i64) -> i64
    requires least { neg_ℤ (pos (2 ^ 62)) ≤ℤ sum }
    requires most { sum ≤ℤ pos (2 ^ 62) }
    requires weight { IsEnd (Some weight) }
    ensures { result ≡ sum +ℤ weight }
{
    sum + weight
}

// The edge at a place of a walk. It is to begin at an event.
fn check_edge(
    net: &Network,
    chosen: &Decisions,
    place: usize,
    at: EventId,
    name: EdgeName,
) -> Result<Edge, CheckFault>
    requires case { IsCase net.now chosen.now.chosen }
    ensures edge { IfOk result (λ e. edge net.now name ≡ Some e) }
    ensures weight { IfOk result (λ e. IsEnd (Some e.weight)) }
    ensures fault { AnswersFault result
        (fault_of_edge place at (is_usable net.now chosen.now.chosen name) (edge net.now name)) }
{
    let Some(edge) = net.edge(name) else {
        return Err(CheckFault::BadEdge(place));
    };
    if !is_usable(net, chosen, name) {
        return Err(CheckFault::NotChosen(place));
    }
    if edge.from != at {
        return Err(CheckFault::Broken(place));
    }
    Ok(edge)
}

// Whether an edge that is there may be used in a case.
fn is_usable(net: &Network, chosen: &Decisions, name: EdgeName) -> bool
    requires there { IsSome (edge net.now name) }
    requires case { IsCase net.now chosen.now.chosen }
    ensures { result ≡ is_usable net.now chosen.now.chosen name }
{
    net.is_always(name)
        || (chosen.cause_of(name.constraint) == Some(name.cause)
            && is_choice_side(net.kind(name.constraint), name.side))
}

// Whether a side is the choice side of constraints of this kind.
fn is_choice_side(kind: RuleKind, side: Side) -> bool
    ensures { result ≡ is_choice_side kind side }
{
    match kind {
        RuleKind::Lin => false,
        RuleKind::Late => side == Side::Upper,
        RuleKind::Early => side == Side::Lower,
    }
}
