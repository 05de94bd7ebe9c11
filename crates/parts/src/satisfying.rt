//! Which times satisfy a network, and which edges it has.

use crate::out::Out;
use crate::writing::{are_times, numbers_of};
use certificate::read_line;
use event_graph::{Line, Network};
use itv_base::EdgeName;
use std::alloc::Global;

/// Writes the first constraint that times break, or that there is none.
pub fn broken(alloc: Global, net: &Network, row: &str, out: &mut Out) {
    match numbers_of(alloc, row) {
        Some(times) => {
            put_broken(net, &times, out);
            drop(times);
        }
        None => out.refuse(),
    }
}

fn put_broken(net: &Network, times: &[i64], out: &mut Out) {
    if times.len() != net.events() as usize || !are_times(times) {
        out.refuse();
        return;
    }
    match net.broken(times) {
        Some(number) => out.put_count(u64::from(number)),
        None => out.put("none"),
    }
}

/// Writes each edge of a path, and whether it is an always-edge.
pub fn edge(alloc: Global, net: &Network, row: &str, out: &mut Out) {
    match read_line(alloc, row.as_bytes()) {
        Ok(line) => {
            if let Line::Path(edges) = line.line() {
                put_edges(net, edges, out);
            }
            drop(line);
        }
        Err(_) => out.refuse(),
    }
}

fn put_edges(net: &Network, edges: &[EdgeName], out: &mut Out) {
    for &name in edges {
        put_edge(net, name, out);
        out.put(if net.is_always(name) { ", always" } else { "" });
    }
}

fn put_edge(net: &Network, name: EdgeName, out: &mut Out) {
    match net.edge(name) {
        Some(edge) => {
            out.put_count(u64::from(edge.from.0));
            out.put(" to ");
            out.put_count(u64::from(edge.to.0));
            out.put(" by ");
            out.put_number(edge.weight);
        }
        None => out.put("none"),
    }
}

/// Writes how many events and constraints the network has, and whether it has at most this number of choices of causes.
pub fn choices(net: &Network, row: &str, out: &mut Out) {
    match row.parse::<u64>() {
        Ok(count) => {
            out.put_count(u64::from(net.events()));
            out.put(" events, ");
            out.put_count(u64::from(net.len()));
            out.put(if net.choices_fit(count) {
                " constraints, at most"
            } else {
                " constraints, more"
            });
        }
        Err(_) => out.refuse(),
    }
}
