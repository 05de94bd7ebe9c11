//! Greatest separations by falling values, and the check of their lines.

ghost use Rattle.std.specs.Prelude.{◌<◌};
ghost use Rattle.falling.specs.Checking.{IsBegun};
ghost use Rattle.falling.specs.Solving.{IsMadeFor};
ghost use Rattle.falling.specs.View.{IsViewOf};

use crate::out::Out;
use crate::writing::{PairQuestion, asked_of, put_flags, put_numbers, put_taken};
use clause_texts::read_clause_line;
use edge_clauses::{Basis, EventBound, StoredLine};
use event_graph::Network;
use falling::{FallChecker, Fallen, Falling, QuietFall, View};
use itv_base::EventId;
use line_words::short_in;
use std::alloc::Global;

/// Writes which network is solved.
pub fn view(net: &Network, out: &mut Out) {
    match View::of(net) {
        Ok(View::Plain) => out.put("plain"),
        Ok(View::Negated) => out.put("negated"),
        Err(mixed) => out.put_shown(&mixed),
    }
}

/// Solves a pair, and writes what the word of the row asks for: `answer`, `times`, `ray`, `turns`, or the turns that are `enough`.
pub fn fall(alloc: Global, net: &Network, row: &str, out: &mut Out) {
    match asked_of(row) {
        Some(asked) if asked.from.0 < net.events() && asked.to.0 < net.events() => {
            fall_by(alloc, net, asked, out)
        }
        _ => out.refuse(),
    }
}

fn fall_by(alloc: Global, net: &Network, asked: PairQuestion<'_>, out: &mut Out)
    requires from { asked.from.0 < net.now.events }
    requires to { asked.to.0 < net.now.events }
{
    match View::of(net) {
        Ok(view) => fall_in(alloc, net, view, asked, out),
        Err(_) => out.refuse(),
    }
}

fn fall_in(alloc: Global, net: &Network, view: View, asked: PairQuestion<'_>, out: &mut Out)
    requires view { IsViewOf net.now view }
    requires from { asked.from.0 < net.now.events }
    requires to { asked.to.0 < net.now.events }
{
    match Falling::new(alloc, net, view) {
        Ok(mut falling) => {
            fall_pair(net, &mut falling, asked, out);
            drop(falling);
        }
        Err(_) => out.refuse(),
    }
}

fn fall_pair(net: &Network, falling: &mut Falling, asked: PairQuestion<'_>, out: &mut Out)
    requires made { IsMadeFor net.now falling.old }
    requires from { asked.from.0 < net.now.events }
    requires to { asked.to.0 < net.now.events }
{
    let Ok(turns) = u64::try_from(asked.number) else {
        out.refuse();
        return;
    };
    match falling.greatest(net, asked.from, asked.to, turns, &mut QuietFall) {
        Ok(fallen) => put_asked(asked.word, falling, fallen, out),
        Err(_) => out.refuse(),
    }
}

fn put_asked(word: &str, falling: &Falling, fallen: Fallen, out: &mut Out) {
    match word {
        "answer" => put_fallen(fallen, out),
        "times" => put_numbers(falling.times(), out),
        "ray" => put_flags(falling.ray(), out),
        "turns" => out.put_count(falling.turns()),
        _ => out.put_shown(&falling.enough()),
    }
}

fn put_fallen(fallen: Fallen, out: &mut Out) {
    match fallen {
        Fallen::Closed(value) => {
            out.put("closed ");
            out.put_number(value);
        }
        Fallen::Unbounded => out.put("unbounded"),
        Fallen::Inconsistent => out.put("inconsistent"),
        Fallen::Spent => out.put("spent"),
    }
}

/// Checks the lines of a derivation from event 0. A row is a line as in `fall 2 31 1.0u` or `fall 1 31 C0`, or asks for the value of an event, as in
/// `value 2`, or whether the derivation has `ended`.
pub fn lines(alloc: Global, net: &Network, rows: &str, out: &mut Out) {
    if net.events() == 0 {
        out.refuse();
        return;
    }
    match FallChecker::new(alloc, net) {
        Ok(mut checker) => {
            checker.begin(net, EventId(0));
            take_rows(alloc, net, &mut checker, rows, out);
            drop(checker);
        }
        Err(_) => out.refuse(),
    }
}

fn take_rows(alloc: Global, net: &Network, checker: &mut FallChecker, rows: &str, out: &mut Out)
    requires begun { IsBegun net.now checker.old }
{
    for row in rows.lines() {
        take_row(alloc, net, checker, row, out);
    }
}

fn take_row(alloc: Global, net: &Network, checker: &mut FallChecker, row: &str, out: &mut Out)
    requires begun { IsBegun net.now checker.old }
    ensures begun { IsBegun net.now checker.new }
{
    if row == "ended" {
        out.put_whether(checker.is_ended());
        out.put("\n");
    } else if let Some(event) = row.strip_prefix("value ") {
        put_value(net, checker, event, out);
    } else {
        match fall_of(alloc, row) {
            Some(fall) if fall.event.0 < net.events() => take(net, checker, fall, out),
            _ => out.refuse(),
        }
    }
}

// The fall of a line.
fn fall_of(alloc: Global, row: &str) -> Option<EventBound> {
    match read_clause_line(alloc, row.as_bytes()) {
        Ok(StoredLine::Fall(fall)) => Some(fall),
        _ => None,
    }
}

fn take(net: &Network, checker: &mut FallChecker, fall: EventBound, out: &mut Out)
    requires begun { IsBegun net.now checker.old }
    requires event { fall.event.0 < net.now.events }
    ensures begun { IsBegun net.now checker.new }
{
    match fall.basis {
        Basis::ByEdge(edge) => {
            put_taken(checker.take_fall(net, fall.event, fall.value, edge), out)
        }
        Basis::ByChoice(latest) => {
            put_taken(checker.take_late(net, fall.event, fall.value, latest), out)
        }
        _ => out.refuse(),
    }
}

fn put_value(net: &Network, checker: &FallChecker, event: &str, out: &mut Out)
    requires begun { IsBegun net.now checker.now }
{
    match short_in(event) {
        Some(event) if event < net.events() => {
            out.put_number(checker.value(EventId(event)));
            out.put("\n");
        }
        _ => out.refuse(),
    }
}
