//! The matrix before the first event: the always-edges alone.

ghost use Rattle.std.specs.Prelude.{◌≡◌, ◌≢◌, ◌<◌, ℕ, [], pos, IfNone, IfOk, IfSome, length, replicate, slice_index_or, slice_set};
ghost use Rattle.event_graph.specs.Edges.{IsAlways};
ghost use Rattle.event_graph.specs.Network.{IsNet};
ghost use Rattle.minplus.specs.declared.rows.TheConstants.{ABSENT};
ghost use Rattle.minplus.specs.Matrix.{IsSquare, cells};
ghost use Rattle.minplus.specs.Step.Entries.{HoldsEdges};
ghost use Rattle.minplus.specs.Step.Rows.{LowersEntry};
ghost use Rattle.minplus.specs.Step.Edges.{BoundSeparations, AreEmptyRows, NoneRose, HoldsCause, HoldsEdge, IsAlwaysEdge, Lowers};

use crate::matrix_row::MatrixRow;
use crate::rows::ABSENT;
use event_graph::{Edge, Network};
use itv_base::{EdgeName, NoMemory, Side};
use std::alloc::Global;

/// The rows of the always-edges. From an event to itself the entry is 0 or less. From one event to another it is the
/// least weight of an always-edge between them, or absent.
pub fn first_rows(alloc: Global, net: &Network) -> Result<Vec<MatrixRow>, NoMemory>
    ensures bounds { IfOk result (λ rows. BoundSeparations net.now rows.items) }
    ensures edges { IfOk result (λ rows. HoldsEdges net.now (cells rows.items)) }
{
    let mut rows = empty_rows(alloc, net.events() as usize)?;
    lower_all(net, &mut rows);
    Ok(rows)
}

// The rows of no edges: 0 from each event to itself, and all other entries absent.
fn empty_rows(alloc: Global, events: usize) -> Result<Vec<MatrixRow>, NoMemory>
    ensures { IfOk result (λ rows. AreEmptyRows events events rows.items) }
{
    let mut rows = Vec::with_capacity(alloc, events)?;
    for own in 0..events {
        rows.push(empty_row(alloc, events, own)?)?;
    }
    Ok(rows)
}

fn empty_row(alloc: Global, events: usize, own: usize) -> Result<MatrixRow, NoMemory>
    requires { own < events }
    ensures { IfOk result (λ row. row ≡ slice_set (replicate events ABSENT) own (pos 0)) }
{
    let mut entries = vec![in alloc; ABSENT; events]?;
    entries[own] = 0;
    Ok(MatrixRow { entries })
}

// Lowers the entries to the weights of the always-edges.
fn lower_all(net: &Network, rows: &mut [MatrixRow])
    requires net { IsNet net.now }
    requires bounds { BoundSeparations net.now rows.old }
    ensures bounds { BoundSeparations net.now rows.new }
    ensures edges { HoldsEdges net.now (cells rows.new) }
{
    for constraint in 0..net.len() {
        lower_constraint(net, constraint, rows);
    }
}

// Lowers the entries to the weights of the always-edges of a constraint.
fn lower_constraint(net: &Network, constraint: u32, rows: &mut [MatrixRow])
    requires net { IsNet net.now }
    requires constraint { constraint < length net.now.constraints }
    requires bounds { BoundSeparations net.now rows.old }
    ensures bounds { BoundSeparations net.now rows.new }
    ensures falls { NoneRose (cells rows.old) (cells rows.new) }
    ensures causes { (cause : ℕ) → HoldsCause net.now (cells rows.new) constraint cause }
{
    for cause in 0..net.cause_count(constraint).max(1) {
        lower_cause(net, constraint, cause, rows);
    }
}

// Lowers the entries to the weights of the always-edges of a cause, on both sides.
fn lower_cause(net: &Network, constraint: u32, cause: u32, rows: &mut [MatrixRow])
    requires { BoundSeparations net.now rows.old }
    ensures bounds { BoundSeparations net.now rows.new }
    ensures falls { NoneRose (cells rows.old) (cells rows.new) }
    ensures cause { HoldsCause net.now (cells rows.new) constraint cause }
{
    let lower = EdgeName {
        constraint,
        cause,
        side: Side::Lower,
    };
    lower_named(net, lower, rows);
    let upper = EdgeName {
        constraint,
        cause,
        side: Side::Upper,
    };
    lower_named(net, upper, rows);
}

// Lowers an entry to the weight of the edge with this name, if it is an always-edge.
fn lower_named(net: &Network, name: EdgeName, rows: &mut [MatrixRow])
    requires { BoundSeparations net.now rows.old }
    ensures bounds { BoundSeparations net.now rows.new }
    ensures falls { NoneRose (cells rows.old) (cells rows.new) }
    ensures edge { HoldsEdge net.now (cells rows.new) name }
{
    if let Some(edge) = always_edge(net, name) {
        lower(rows, edge);
    }
}

// The edge with this name, if it is an always-edge.
fn always_edge(net: &Network, name: EdgeName) -> Option<Edge>
    ensures some { IfSome result (IsAlwaysEdge net.now name) }
    ensures none { IfNone result (IsAlways net.now name → ⊥) }
{
    if net.is_always(name) {
        net.edge(name)
    } else {
        None
    }
}

// Lowers the entry from the edge's from-event to its to-event to the edge's weight.
fn lower(rows: &mut [MatrixRow], edge: Edge)
    requires square { IsSquare (length rows.old) rows.old }
    requires from { edge.from.0 < length rows.old }
    requires to { edge.to.0 < length rows.old }
    ensures square { IsSquare (length rows.old) rows.new }
    ensures lowers { Lowers edge (cells rows.old) (cells rows.new) }
{
    lower_nth(rows, edge.from.0 as usize, edge.to.0 as usize, edge.weight);
}

// Lowers an entry of one of the rows.
fn lower_nth(rows: &mut [MatrixRow], k: usize, place: usize, weight: i64)
    requires row { k < length rows.old }
    requires place { place < length (slice_index_or rows.old k []) }
    ensures row { LowersEntry place weight
        (slice_index_or rows.old k []) (slice_index_or rows.new k []) }
    ensures others { (other : ℕ) → other ≢ k
        → slice_index_or rows.new other [] ≡ slice_index_or rows.old other [] }
    ensures count { length rows.new ≡ length rows.old }
{
    let row = &mut rows[k];
    lower_entry(&mut row.entries, place, weight);
}

// Lowers an entry to a weight, if the weight is less.
fn lower_entry(row: &mut [i64], place: usize, weight: i64)
    requires { place < length row.old }
    ensures { LowersEntry place weight row.old row.new }
{
    row[place] = row[place].min(weight);
}
