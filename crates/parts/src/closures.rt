//! Rows of a matrix of path lengths, and closures of networks.

ghost use Rattle.std.specs.Prelude.{IsTrue, All};
ghost use Rattle.minplus.specs.Matrix.{AreRootBounds};
ghost use Rattle.minplus.specs.Rows.{IsEntry};

use crate::out::Out;
use crate::writing::{numbers_of, put_numbers};
use event_graph::Network;
use itv_base::EventId;
use minplus::{ABSENT, Matrix, closure, row_lanes, row_plain};
use std::alloc::Global;

/// Writes a row that is improved by another row less 20, once one by one and once by lanes. The two rows have a bar between them, and a star is an
/// absent entry.
pub fn lanes(alloc: Global, row: &str, out: &mut Out) {
    let (entries, others) = row.split_once('|').unwrap_or((row, "-"));
    put_improved(alloc, entries, others, false, out);
    out.put("|");
    put_improved(alloc, entries, others, true, out);
}

// Writes a row that is improved by another.
fn put_improved(alloc: Global, entries: &str, others: &str, by_lanes: bool, out: &mut Out) {
    match numbers_of(alloc, entries) {
        Some(mut entries) => {
            improve(alloc, &mut entries, others, by_lanes, out);
            put_numbers(&entries, out);
            drop(entries);
        }
        None => out.refuse(),
    }
}

// Improves a row by that of a text.
fn improve(alloc: Global, entries: &mut [i64], others: &str, by_lanes: bool, out: &mut Out) {
    match numbers_of(alloc, others) {
        Some(others) => {
            improve_by(entries, &others, by_lanes, out);
            drop(others);
        }
        None => out.refuse(),
    }
}

fn improve_by(entries: &mut [i64], others: &[i64], by_lanes: bool, out: &mut Out) {
    if entries.len() != others.len() || !are_entries(entries) || !are_entries(others) {
        out.refuse();
    } else if by_lanes {
        row_lanes(entries, others, -20);
    } else {
        row_plain(entries, others, -20);
    }
}

fn are_entries(values: &[i64]) -> bool
    ensures { IsTrue result → All IsEntry values.now }
{
    values.iter().all(|&value| is_entry(value))
}

fn is_entry(value: i64) -> bool
    ensures { IsTrue result → IsEntry value }
{
    let limit: i64 = 1 << 61;
    value == ABSENT || (-limit < value && value < limit)
}

/// Writes the closure of a network, a line for each of the first eight events, or its fault.
pub fn matrix(alloc: Global, net: &Network, out: &mut Out) {
    match closure(alloc, net) {
        Ok(matrix) => {
            put_matrix(net, &matrix, out);
            drop(matrix);
        }
        Err(fault) => out.put_shown(&fault),
    }
}

fn put_matrix(net: &Network, matrix: &Matrix, out: &mut Out)
    requires { AreRootBounds net.now matrix.now }
{
    let count = net.events().min(8);
    out.put_count(u64::from(net.events()));
    out.put(" events");
    for from in 0..count {
        out.put("\n");
        for to in 0..count {
            out.put(" ");
            out.put_end(matrix.at(EventId(from), EventId(to)));
        }
    }
}
