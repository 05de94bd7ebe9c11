//! Requirements whose judged chain counts a period of their first mark in. No definition describes this warning: nobody relies on it as true, so tests
//! try it.

use crate::parts::event_part;
use compose::Design;
use drawn_networks::{DrawnNetwork, Row};
use explanations::{BoundFound, RowFound};
use itv_base::{EdgeName, EventId, NoMemory, RowKind};
use lint::{About, DrawnPlace, Warning, WarningWord};
use origin::Origin;
use requirements::Separation;

/// Puts a warning of its edge at the end for each requirement between two marks whose judged chain begins or ends with the own period of its first mark:
/// without the period it would be about one cycle, as a hold is. A row that several cycles have gives one warning. What is found of each row is given. The answer
/// is `NoMemory` if memory runs out.
pub fn push_own_periods(
    warnings: &mut Vec<Warning>,
    found: &[RowFound],
    drawn: &DrawnNetwork,
    design: &Design<'_>,
) -> Result<(), NoMemory> {
    for (row, found) in drawn.rows().as_slice().iter().zip(found.iter()) {
        if counts_period(drawn, row, found) {
            push_row(warnings, row, drawn, design)?;
        }
    }
    Ok(())
}

/// Whether some requirement is between two marks in two cycles.
pub fn may_count(drawn: &DrawnNetwork) -> bool {
    drawn
        .rows()
        .as_slice()
        .iter()
        .any(|row| may_count_row(drawn, row))
}

fn may_count_row(drawn: &DrawnNetwork, row: &Row) -> bool {
    match row.kind {
        RowKind::Ask => false,
        RowKind::Req(_) => !is_one_mark(drawn, row.from, row.to) && is_between_cycles(drawn, row),
    }
}

fn is_between_cycles(drawn: &DrawnNetwork, row: &Row) -> bool {
    let events = drawn.network().events();
    row.from.0 < events
        && row.to.0 < events
        && drawn.name(row.from).cycle != drawn.name(row.to).cycle
}

// Puts the warning of a row at the end, if it has none yet.
fn push_row(
    warnings: &mut Vec<Warning>,
    row: &Row,
    drawn: &DrawnNetwork,
    design: &Design<'_>,
) -> Result<(), NoMemory> {
    let place = DrawnPlace {
        part: part_of(drawn, design, row.from),
        origin: row.origin,
    };
    if !warnings.iter().any(|warning| is_period_at(place, warning)) {
        warnings.push(Warning {
            word: WarningWord::Period,
            about: About::Place(place),
        })?;
    }
    Ok(())
}

fn is_period_at(place: DrawnPlace, warning: &Warning) -> bool {
    match (warning.word, warning.about) {
        (WarningWord::Period, About::Place(other)) => {
            place.part == other.part && is_same_edge(place.origin, other.origin)
        }
        _ => false,
    }
}

fn is_same_edge(a: Origin, b: Origin) -> bool {
    match (a, b) {
        (Origin::Edge(m), Origin::Edge(n)) | (Origin::Wire(m), Origin::Wire(n)) => m == n,
        _ => false,
    }
}

// The number of the part of an event, or 0 if there is no such part.
fn part_of(drawn: &DrawnNetwork, design: &Design<'_>, event: EventId) -> u32 {
    let name = event_part(drawn, event);
    let mut part = 0u32;
    for other in design.parts().as_slice() {
        if other.as_text() == name {
            return part;
        }
        part = part.saturating_add(1);
    }
    0
}

// Whether the chain of a judged end of a requirement between two marks has the own period of the first mark at its start or at its end.
fn counts_period(drawn: &DrawnNetwork, row: &Row, found: &RowFound) -> bool {
    match row.kind {
        RowKind::Ask => false,
        RowKind::Req(range) => {
            may_count_row(drawn, row)
                && (range.high().is_some() && has_period(drawn, row.from, &found.greatest)
                    || range.low().is_some() && has_period(drawn, row.from, &found.least))
        }
    }
}

// Whether the chain of a bound has the own period of the mark of an event at its start or at its end, from this event or to it.
fn has_period(drawn: &DrawnNetwork, event: EventId, found: &BoundFound) -> bool {
    match found {
        Separation::Closed { shown, .. } => match shown.as_slice() {
            [] => false,
            [only] => is_period_of(drawn, event, *only),
            [first, .., last] => {
                is_period_of(drawn, event, *first) || is_period_of(drawn, event, *last)
            }
        },
        Separation::Unbounded { .. } | Separation::Open { .. } => false,
    }
}

// Whether an edge goes between an event and the same mark in another cycle.
fn is_period_of(drawn: &DrawnNetwork, event: EventId, name: EdgeName) -> bool {
    match drawn.network().edge(name) {
        Some(edge) => {
            (edge.from == event || edge.to == event) && is_one_mark(drawn, edge.from, edge.to)
        }
        None => false,
    }
}

// Whether two events are one mark in two cycles, or one event.
fn is_one_mark(drawn: &DrawnNetwork, a: EventId, b: EventId) -> bool {
    let events = drawn.network().events();
    if events <= a.0 || events <= b.0 {
        return false;
    }
    let a = drawn.name(a);
    let b = drawn.name(b);
    a.mark == b.mark && a.part == b.part
}
