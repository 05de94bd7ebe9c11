//! The greatest or the least separation of a pair of events.

ghost use Rattle.std.specs.Prelude.{◌≡◌, ◌<◌, ◌≤◌, IfOk, false};
ghost use Rattle.event_graph.specs.Edges.{cause_choices};
ghost use Rattle.extremes.specs.Found.{IsGreatestFound};
ghost use Rattle.extremes.specs.Ready.{IsReady};
ghost use Rattle.requirements.specs.Separations.{is_open as is_separation_open};
ghost use Rattle.steady.specs.Extremes.{IsExtremeFound, is_further, is_open, is_past};

use event_graph::{Network, negated_time};
use extremes::{Extremes, Greatest};
use itv_base::{EventId, NoMemory, Side};
use requirements::Separation;
use std::alloc::Global;

/// What is found of the greatest or the least separation of a pair of events.
#[derive(Drop)]
pub enum Extreme {
    /// It is this number of picoseconds, and these satisfying times attain it.
    Closed { value: i64, times: Vec<i64> },
    /// There is none: satisfying separations go past every number.
    Unbounded,
    /// The search ended before it was known.
    Open,
}

/// The greatest separation of a pair of events on the upper side, or the least on the lower side. The network was found consistent.
pub fn extreme_of(
    alloc: Global,
    net: &Network,
    extremes: &mut Extremes,
    side: Side,
    from: EventId,
    to: EventId,
) -> Result<Extreme, NoMemory>
    requires ready { IsReady net.now extremes.old }
    requires from { from.0 < net.now.events }
    requires to { to.0 < net.now.events }
    ensures ready { IsReady net.now extremes.new }
    ensures budget { extremes.new.budget ≡ extremes.old.budget }
    ensures found { IfOk result (IsExtremeFound side net.now from to) }
    ensures settles { IfOk result (λ found. cause_choices net.now.constraints ≤ extremes.old.budget → is_open found ≡ false) }
{
    match side {
        Side::Upper => {
            let found = extremes.greatest(alloc, net, from, to)?;
            Ok(upper(net, from, to, found))
        }
        Side::Lower => {
            let found = extremes.greatest(alloc, net, to, from)?;
            Ok(lower(net, to, from, found))
        }
    }
}

// What is found of the greatest separation of a pair.
fn upper(net: &Network, from: EventId, to: EventId, found: Greatest) -> Extreme
    requires found { IsGreatestFound net.now from to found }
    ensures found { IsExtremeFound Side.Upper net.now from to result }
    ensures open { is_open result ≡ is_separation_open found }
{
    match found {
        Separation::Closed { value, shown } => Extreme::Closed {
            value,
            times: shown,
        },
        Separation::Unbounded { .. } => Extreme::Unbounded,
        Separation::Open { .. } => Extreme::Open,
    }
}

// What is found of the least separation of the reversed pair.
fn lower(net: &Network, from: EventId, to: EventId, found: Greatest) -> Extreme
    requires found { IsGreatestFound net.now from to found }
    ensures found { IsExtremeFound Side.Lower net.now to from result }
    ensures open { is_open result ≡ is_separation_open found }
{
    match found {
        Separation::Closed { value, shown } => Extreme::Closed {
            value: negated_time(value),
            times: shown,
        },
        Separation::Unbounded { .. } => Extreme::Unbounded,
        Separation::Open { .. } => Extreme::Open,
    }
}

/// Which of two goes further on a side. What is unbounded goes furthest, and what was left open goes further than any number.
pub fn is_further(side: Side, first: &Extreme, other: &Extreme) -> bool
    ensures further { result ≡ is_further side first.now other.now }
{
    match (first, other) {
        (Extreme::Closed { value, .. }, Extreme::Closed { value: more, .. }) => is_past(
            side, value, more,
        ),
        (Extreme::Closed { .. }, Extreme::Unbounded | Extreme::Open) => true,
        (Extreme::Open, Extreme::Unbounded) => true,
        (Extreme::Open, Extreme::Closed { .. } | Extreme::Open) => false,
        (Extreme::Unbounded, _) => false,
    }
}

// Whether the second number is past the first on a side.
fn is_past(side: Side, first: &i64, other: &i64) -> bool
    ensures { result ≡ is_past side first.now other.now }
{
    match side {
        Side::Upper => *first < *other,
        Side::Lower => *other < *first,
    }
}
