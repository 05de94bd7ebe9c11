//! Why a bound is what it is: chains of edges that times meet with equality, and the constraints that lines of a proof name.

ghost use Rattle.std.specs.Prelude.{◌≡◌, ◌<◌, All, length};
ghost use Rattle.event_graph.specs.Times.{IsTime};

use crate::out::Out;
use crate::proof_lines::{is_taken, put_line};
use crate::writing::{are_times, numbers_of, put_flags};
use chains::{Chains, Marking};
use event_graph::{Line, Network};
use itv_base::EventId;
use line_words::short_in;
use std::alloc::Global;

/// Writes the chain from an event to another at some times, or that there is none, for a row as in `1 2 -100 0 600`.
pub fn chain(alloc: Global, net: &Network, row: &str, out: &mut Out) {
    match pair_of(row) {
        Some((from, to, times)) if from.0 < net.events() && to.0 < net.events() => {
            chain_of(alloc, net, from, to, times, out)
        }
        _ => out.refuse(),
    }
}

// The two events of a row, and the text of its times.
fn pair_of(row: &str) -> Option<(EventId, EventId, &str)> {
    let (from, row) = row.split_once(' ')?;
    let (to, row) = row.split_once(' ')?;
    Some((EventId(short_in(from)?), EventId(short_in(to)?), row))
}

// Writes the chain of a pair at the times of a text.
fn chain_of(alloc: Global, net: &Network, from: EventId, to: EventId, text: &str, out: &mut Out)
    requires from { from.0 < net.now.events }
    requires to { to.0 < net.now.events }
{
    match numbers_of(alloc, text) {
        Some(times) => {
            if times.len() == net.events() as usize && are_times(&times) {
                chain_at(alloc, net, from, to, &times, out);
            } else {
                out.refuse();
            }
            drop(times);
        }
        None => out.refuse(),
    }
}

// Writes the chain of a pair at some times.
fn chain_at(alloc: Global, net: &Network, from: EventId, to: EventId, times: &[i64], out: &mut Out)
    requires from { from.0 < net.now.events }
    requires to { to.0 < net.now.events }
    requires count { length times.now ≡ net.now.events }
    requires times { All IsTime times.now }
{
    match Chains::new(alloc, net) {
        Ok(mut chains) => {
            if chains.find(net, times, from, to) {
                put_line(alloc, &Line::Path(chains.names()), out);
            } else {
                out.put("none");
            }
            drop(chains);
        }
        Err(_) => out.refuse(),
    }
}

/// Gives the lines of a proof to a scribe that marks the constraints that they name, and writes the marks after each. The row `begin` begins a
/// proof.
pub fn marks(alloc: Global, net: &Network, rows: &str, out: &mut Out) {
    match Marking::new(alloc, net) {
        Ok(mut marking) => {
            mark_all(alloc, &mut marking, rows, out);
            drop(marking);
        }
        Err(_) => out.refuse(),
    }
}

fn mark_all(alloc: Global, marking: &mut Marking, rows: &str, out: &mut Out) {
    for row in rows.lines() {
        mark(alloc, marking, row, out);
        put_flags(marking.marks(), out);
        out.put("\n");
    }
}

fn mark(alloc: Global, marking: &mut Marking, row: &str, out: &mut Out) {
    if row == "begin" {
        marking.begin();
    } else if !is_taken(alloc, row, marking) {
        out.refuse();
    }
}
