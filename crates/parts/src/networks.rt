//! Networks that a case gives.

use crate::out::Out;
use crate::writing::range_of;
use event_graph::{Cause, Network, PushFault};
use itv_base::{EventId, MAX_EVENTS};
use line_words::short_in;
use std::alloc::Global;

/// The network of a subject. Its first line is as in `events 3`. Each other line is a constraint, or `chain LOW:HIGH`, by which each event comes
/// in this range after the event before it. If there is no room for a constraint, the fault is written. The answer is `None`, and the row is refused,
/// if a line does not have its form.
pub fn network(alloc: Global, subject: &str, out: &mut Out) -> Option<Network> {
    let net = pushed(alloc, subject, out);
    if net.is_none() {
        out.refuse();
    }
    net
}

fn pushed(alloc: Global, subject: &str, out: &mut Out) -> Option<Network> {
    let (head, constraints) = subject.split_once('\n')?;
    let events = short_in(head.strip_prefix("events ")?)?;
    let mut net = Network::new(alloc, events.min(MAX_EVENTS)).ok()?;
    match push_lines(alloc, &mut net, constraints, out) {
        Some(()) => Some(net),
        None => {
            drop(net);
            None
        }
    }
}

// Adds the constraints of some lines.
fn push_lines(alloc: Global, net: &mut Network, lines: &str, out: &mut Out) -> Option<()> {
    for line in lines.lines() {
        match line.strip_prefix("chain ") {
            Some(ends) => push_chain(alloc, net, ends, out)?,
            None => push_constraint(alloc, net, line, out)?,
        }
    }
    Some(())
}

// Adds a linear constraint from each event to the next.
fn push_chain(alloc: Global, net: &mut Network, ends: &str, out: &mut Out) -> Option<()> {
    let range = range_of(ends)?;
    for target in 1..net.events() {
        let event = EventId(target - 1);
        add(alloc, net, "lin", target, &[Cause { event, range }], out)?;
    }
    Some(())
}

// Adds a constraint as in `late 2 0:500:700 1:200:*`: its kind, its target, and its causes with their ranges. `late*3` adds it three times.
fn push_constraint(alloc: Global, net: &mut Network, line: &str, out: &mut Out) -> Option<()> {
    let (kind, rest) = line.split_once(' ')?;
    let (target, rest) = rest.split_once(' ').unwrap_or((rest, ""));
    let target = short_in(target)?;
    let causes = causes_of(alloc, rest)?;
    let added = add_often(alloc, net, kind, target, &causes, out);
    drop(causes);
    added
}

// The causes of a constraint.
fn causes_of(alloc: Global, text: &str) -> Option<Vec<Cause>> {
    let mut causes = Vec::new(alloc);
    for word in text.split(' ') {
        causes.push(cause_of(word)?).ok()?;
    }
    Some(causes)
}

// A cause with its range, as in `0:500:700`.
fn cause_of(word: &str) -> Option<Cause> {
    let (event, ends) = word.split_once(':')?;
    Some(Cause {
        event: EventId(short_in(event)?),
        range: range_of(ends)?,
    })
}

// Adds a constraint as often as its kind says.
fn add_often(
    alloc: Global,
    net: &mut Network,
    kind: &str,
    target: u32,
    causes: &[Cause],
    out: &mut Out,
) -> Option<()> {
    let (kind, count) = kind.split_once('*').unwrap_or((kind, "1"));
    for _ in 0..count.parse::<u32>().ok()? {
        add(alloc, net, kind, target, causes, out)?;
    }
    Some(())
}

// Adds a constraint, after a test of what the network requires.
fn add(
    alloc: Global,
    net: &mut Network,
    kind: &str,
    target: u32,
    causes: &[Cause],
    out: &mut Out,
) -> Option<()> {
    let events = net.events();
    let are_there = causes.iter().all(|cause| cause.event.0 < events);
    if events <= target || causes.is_empty() || 64 < causes.len() || !are_there {
        return None;
    }
    let target = EventId(target);
    let pushed = match kind {
        "late" => net.push_late(alloc, target, causes),
        "early" => net.push_early(alloc, target, causes),
        _ => net.push_linear(alloc, causes[0].event, target, causes[0].range),
    };
    if let Err(fault) = pushed {
        out.put_shown(&fault);
        out.put("\n");
    }
    Some(())
}

/// Writes the text of the fault that a constraint finds no memory, which no row brings about.
pub fn no_memory(out: &mut Out) {
    out.put_shown(&PushFault::NoMemory);
}
