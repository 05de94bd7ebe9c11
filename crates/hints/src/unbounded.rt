//! Events of requirements that nothing bounds.

use crate::held::{Held, Holder, holders_of};
use design_plan::Plan;
use drawn_networks::{DrawnNetwork, Row};
use itv_base::{EventId, EventName, NoMemory, RowKind, Shelf, Side};
use refusal_hints::{Hint, begin_at_mark};

// An event that a requirement needs to be bounded on a side, and what bounds it.
#[derive(Clone, Copy)]
struct Free {
    event: EventId,
    side: Side,
    held: Held,
}

// On which sides an event is free: on both, or on the one that a requirement needs to be bounded.
#[derive(Clone, Copy)]
enum Extent {
    BothSides,
    OneSide,
}

/// Puts what is said of a design some of whose requirements are broken: an event of a requirement that no rule and no net bounds, or else one that none
/// bounds on a side that the requirement is about. Nothing is put if there is none.
pub fn put_unbounded<H: Shelf>(hint: &mut Hint, plan: &Plan, drawn: &DrawnNetwork, shelf: &mut H) {
    match holders_of(hint.alloc(), drawn) {
        Ok(held) => {
            if let Some(free) = first_of(drawn.rows().as_slice(), &held) {
                put_free(hint, plan, drawn, free, shelf);
            }
            drop(held);
        }
        Err(NoMemory) => hint.cut(),
    }
}

// The first event that is free on both sides, or else the first one that is free on the side that its requirement is about.
fn first_of(rows: &[Row], held: &[Held]) -> Option<(Free, Extent)> {
    match first_free(rows, held, Extent::BothSides) {
        Some(free) => Some((free, Extent::BothSides)),
        None => match first_free(rows, held, Extent::OneSide) {
            Some(free) => Some((free, Extent::OneSide)),
            None => None,
        },
    }
}

// What is said of an event that no rule and no net bounds; the order of its lane may.
fn put_free<H: Shelf>(
    hint: &mut Hint,
    plan: &Plan,
    drawn: &DrawnNetwork,
    found: (Free, Extent),
    shelf: &mut H,
) {
    let (free, extent) = found;
    if drawn.network().events() <= free.event.0 {
        return;
    }
    let name = drawn.name(free.event);
    begin_at_mark(hint, sheet_of(plan, name.part), name.mark, shelf);
    put_name(hint, name);
    let (sides, is_ordered) = match extent {
        Extent::BothSides => ("", is_ordered(free.held)),
        Extent::OneSide => (
            side_words(free.side),
            free.held.on(free.side) == Holder::Order,
        ),
    };
    hint.put(" is bounded by nothing");
    hint.put(sides);
    if is_ordered {
        hint.put(" but the order of its lane");
    }
    hint.put(": a net or a rule to it may be missing");
}

fn put_name(hint: &mut Hint, name: EventName<'_>) {
    hint.put_plain(name.part);
    hint.put(".");
    hint.put_mark(name.mark);
    hint.put("@");
    hint.put_number(u64::from(name.cycle));
}

// The name of the sheet of a part.
fn sheet_of<'a>(plan: &'a Plan, part: &str) -> &'a str {
    let parts = plan.netlist().parts().as_slice();
    match parts.iter().find(|found| found.name.as_text() == part) {
        Some(found) => found.sheet.as_text(),
        None => "",
    }
}

fn is_ordered(held: Held) -> bool {
    held.above == Holder::Order || held.below == Holder::Order
}

fn side_words(side: Side) -> &'static str {
    match side {
        Side::Upper => " from above",
        Side::Lower => " from below",
    }
}

// The first event that a requirement needs to be bounded on a side, and that no rule and no net bounds to this extent.
fn first_free(rows: &[Row], held: &[Held], extent: Extent) -> Option<Free> {
    for row in rows {
        let free = free_in(row, held, extent);
        if free.is_some() {
            return free;
        }
    }
    None
}

// The same for one row. A high end says how late the second event may be after the first, and a low end how late the first may be before the second.
fn free_in(row: &Row, held: &[Held], extent: Extent) -> Option<Free> {
    let RowKind::Req(range) = row.kind else {
        return None;
    };
    let mut free = None;
    if range.high().is_some() {
        free = free_between(row.from, row.to, held, extent);
    }
    if free.is_none() && range.low().is_some() {
        free = free_between(row.to, row.from, held, extent);
    }
    free
}

// The same for a requirement that says how late an event may be after another.
fn free_between(other: EventId, event: EventId, held: &[Held], extent: Extent) -> Option<Free> {
    let late = free_at(event, Side::Upper, held, extent);
    if late.is_some() {
        late
    } else {
        free_at(other, Side::Lower, held, extent)
    }
}

fn free_at(event: EventId, side: Side, held: &[Held], extent: Extent) -> Option<Free> {
    let held = *held.get(event.0 as usize)?;
    let is_held = match extent {
        Extent::BothSides => held.above == Holder::Rule || held.below == Holder::Rule,
        Extent::OneSide => held.on(side) == Holder::Rule,
    };
    if is_held {
        None
    } else {
        Some(Free { event, side, held })
    }
}
