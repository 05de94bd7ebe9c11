//! Greatest separations along always-edges and chosen edges.

ghost use Rattle.std.specs.Prelude.{◌<◌, ◌≤◌, IsSome};
ghost use Rattle.diff_bounds.specs.Standing.{Stands};

use crate::out::Out;
use certificate::read_line;
use diff_bounds::{Bounds, Fit};
use event_graph::{Line, Network};
use itv_base::{EdgeName, EventId};
use line_words::short_in;
use std::alloc::Global;

/// Writes the greatest separations from the event of the first row, or `loop` if no times meet the always-edges. Each other row is an edge that is
/// chosen, as in `path 1.0u`, or takes the last choice `back`, and the separations are written again. Where no times meet a choice, it is not made.
pub fn levels(alloc: Global, net: &Network, rows: &str, out: &mut Out) {
    match source_of(rows) {
        Some((from, rows)) if from.0 < net.events() => levels_from(alloc, net, from, rows, out),
        _ => out.refuse(),
    }
}

// The event of the first row, and the other rows.
fn source_of(rows: &str) -> Option<(EventId, &str)> {
    let (from, rows) = rows.split_once('\n')?;
    Some((EventId(short_in(from)?), rows))
}

fn levels_from(alloc: Global, net: &Network, from: EventId, rows: &str, out: &mut Out)
    requires from { from.0 < net.now.events }
{
    match Bounds::new(alloc, net) {
        Ok(mut bounds) => {
            match bounds.start(net, Some(from)) {
                Fit::Loop => out.put("loop\n"),
                Fit::Fits => take_rows(alloc, net, &mut bounds, rows, out),
            }
            drop(bounds);
        }
        Err(_) => out.refuse(),
    }
}

fn take_rows(alloc: Global, net: &Network, bounds: &mut Bounds, rows: &str, out: &mut Out)
    requires stands { Stands net.now bounds.old }
    requires source { IsSome bounds.old.source }
{
    put_uppers(net, bounds, out);
    for row in rows.lines() {
        step(alloc, net, bounds, row, out);
        put_uppers(net, bounds, out);
    }
}

// Makes a choice or takes it back.
fn step(alloc: Global, net: &Network, bounds: &mut Bounds, row: &str, out: &mut Out)
    requires stands { Stands net.now bounds.old }
    requires source { IsSome bounds.old.source }
    ensures stands { Stands net.now bounds.new }
    ensures source { IsSome bounds.new.source }
{
    if row == "back" {
        retreat(net, bounds);
    } else {
        match edge_of(alloc, row) {
            Some(edge) => descend(net, bounds, edge, out),
            None => out.refuse(),
        }
    }
}

fn edge_of(alloc: Global, row: &str) -> Option<EdgeName> {
    match read_line(alloc, row.as_bytes()) {
        Ok(line) => {
            let edge = first_edge(&line.line());
            drop(line);
            edge
        }
        Err(_) => None,
    }
}

fn first_edge(line: &Line<'_>) -> Option<EdgeName> {
    match *line {
        Line::Path(edges) => edges.first().copied(),
        _ => None,
    }
}

// Goes a level down by an edge, if there is room for a level.
fn descend(net: &Network, bounds: &mut Bounds, choice: EdgeName, out: &mut Out)
    requires stands { Stands net.now bounds.old }
    requires source { IsSome bounds.old.source }
    ensures stands { Stands net.now bounds.new }
    ensures source { IsSome bounds.new.source }
{
    if net.splittable_count() <= bounds.trail().depth() {
        out.put("no room");
        return;
    }
    match bounds.descend(net, choice) {
        Fit::Loop => out.put("loop"),
        Fit::Fits => {}
    }
}

// Comes a level back, if there is one.
fn retreat(net: &Network, bounds: &mut Bounds)
    requires stands { Stands net.now bounds.old }
    requires source { IsSome bounds.old.source }
    ensures stands { Stands net.now bounds.new }
    ensures source { IsSome bounds.new.source }
{
    if 0 < bounds.trail().depth() {
        bounds.retreat();
    }
}

// Writes the greatest separations of all events from the source.
fn put_uppers(net: &Network, bounds: &Bounds, out: &mut Out)
    requires stands { Stands net.now bounds.now }
    requires source { IsSome bounds.now.source }
{
    for event in 0..net.events() {
        out.put(" ");
        out.put_end(bounds.upper(EventId(event)));
    }
    out.put("\n");
}

/// Writes the greatest separation of event 0 from the event of the row, the step from it to that of event 1, and how many events are reached by
/// as many such steps as their number says.
pub fn along(alloc: Global, net: &Network, row: &str, out: &mut Out) {
    match short_in(row) {
        Some(from) if from < net.events() && 2 <= net.events() => {
            along_from(alloc, net, EventId(from), out)
        }
        _ => out.refuse(),
    }
}

fn along_from(alloc: Global, net: &Network, from: EventId, out: &mut Out)
    requires from { from.0 < net.now.events }
    requires events { 2 ≤ net.now.events }
{
    match Bounds::new(alloc, net) {
        Ok(mut bounds) => {
            match bounds.start(net, Some(from)) {
                Fit::Loop => out.put("loop"),
                Fit::Fits => put_even(net, &bounds, out),
            }
            drop(bounds);
        }
        Err(_) => out.refuse(),
    }
}

fn put_even(net: &Network, bounds: &Bounds, out: &mut Out)
    requires events { 2 ≤ net.now.events }
    requires stands { Stands net.now bounds.now }
    requires source { IsSome bounds.now.source }
{
    let first = bounds.upper(EventId(0)).unwrap_or(0);
    let step = bounds.upper(EventId(1)).unwrap_or(0).wrapping_sub(first);
    let mut count = 0u32;
    for event in 0..net.events() {
        let label = step.wrapping_mul(i64::from(event)).wrapping_add(first);
        if bounds.upper(EventId(event)) == Some(label) {
            count = count.saturating_add(1);
        }
    }
    out.put_number(first);
    out.put(", by steps of ");
    out.put_number(step);
    out.put(" to ");
    out.put_count(u64::from(count));
    out.put(" events");
}
