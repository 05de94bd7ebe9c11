//! Improving a matrix through each event in turn: the Floyd-Warshall algorithm.

ghost use Rattle.std.specs.Prelude.{◌≡◌, ◌≢◌, ◌<◌, ◌≤◌, ℕ, [], pos, ◌≤ℤ◌, ◌<ℤ◌, true, false, All, length, slice_index_or, OnOk, IfErr};
ghost use Rattle.itv_base.specs.declared.limits.TheConstants.{MAX_MATRIX_EVENTS};
ghost use Rattle.event_graph.specs.RootBound.{HasNoRoot};
ghost use Rattle.minplus.specs.Rows.{IsEntry};
ghost use Rattle.minplus.specs.Matrix.{IsSquare, cells};
ghost use Rattle.minplus.specs.Step.Rows.{RowThrough};
ghost use Rattle.minplus.specs.Step.Entries.{HoldsEdges, IsClosure, IsThrough};
ghost use Rattle.minplus.specs.Step.Edges.{BoundSeparations};

use crate::fault::MatrixFault;
use crate::lanes::row_lanes;
use crate::matrix_row::{MatrixRow, entry};
use crate::rows::ABSENT;
use event_graph::Network;

/// Improves the rows of the always-edges through each event in turn. Returns `Loop` as soon as an entry of the diagonal
/// is negative. So each entry stays a path over different events or the sum of two such paths.
pub fn close(net: &Network, rows: &mut [MatrixRow], through: &mut [i64]) -> Result<(), MatrixFault>
    requires few { net.now.events ≤ MAX_MATRIX_EVENTS }
    requires bounds { BoundSeparations net.now rows.old }
    requires edges { HoldsEdges net.now (cells rows.old) }
    requires room { length through.old ≡ length rows.old }
    ensures square { IsSquare net.now.events rows.new }
    ensures ok { OnOk result (IsClosure net.now (cells rows.new)) }
    ensures err { IfErr result (λ fault. (fault ≡ MatrixFault.Loop) × HasNoRoot net.now) }
{
    if !is_sound(rows) {
        return Err(MatrixFault::Loop);
    }
    for event in 0..rows.len() {
        improve_through(rows, through, event);
        if !is_sound(rows) {
            return Err(MatrixFault::Loop);
        }
    }
    Ok(())
}

// Whether no entry of the diagonal is negative.
fn is_sound(rows: &[MatrixRow]) -> bool
    requires { IsSquare (length rows.now) rows.now }
    ensures yes { result ≡ true → (at : ℕ) → at < length rows.now → pos 0 ≤ℤ cells rows.now at at }
    ensures no { result ≡ false → (at : ℕ) × (cells rows.now at at <ℤ pos 0) }
{
    for at in 0..rows.len() {
        if entry(rows, at, at) < 0 {
            return false;
        }
    }
    true
}

// Improves each row through an event. First copies the event's own row to `through`.
fn improve_through(rows: &mut [MatrixRow], through: &mut [i64], event: usize)
    requires square { IsSquare (length rows.old) rows.old }
    requires event { event < length rows.old }
    requires room { length through.old ≡ length rows.old }
    requires entries { All (All IsEntry) rows.old }
    ensures square { IsSquare (length rows.old) rows.new }
    ensures through { IsThrough event (cells rows.old) (cells rows.new) }
{
    let own = &rows[event];
    through.copy_from_slice(&own.entries);
    for k in 0..rows.len() {
        improve_nth(rows, k, through, event);
    }
}

// Improves one of the rows through an event. `through` is the event's own row.
fn improve_nth(rows: &mut [MatrixRow], k: usize, through: &[i64], event: usize)
    requires row { k < length rows.old }
    requires lengths { length through.now ≡ length (slice_index_or rows.old k []) }
    requires event { event < length (slice_index_or rows.old k []) }
    requires entries { All IsEntry (slice_index_or rows.old k []) }
    requires others { All IsEntry through.now }
    ensures row { RowThrough event
        (slice_index_or rows.old k []) through.now (slice_index_or rows.new k []) }
    ensures others { (other : ℕ) → other ≢ k
        → slice_index_or rows.new other [] ≡ slice_index_or rows.old other [] }
    ensures count { length rows.new ≡ length rows.old }
{
    let row = &mut rows[k];
    improve_row(&mut row.entries, through, event);
}

// Improves a row through an event. `through` is the event's own row.
fn improve_row(row: &mut [i64], through: &[i64], event: usize)
    requires lengths { length through.now ≡ length row.old }
    requires event { event < length row.old }
    requires entries { All IsEntry row.old }
    requires others { All IsEntry through.now }
    ensures { RowThrough event row.old through.now row.new }
{
    let weight = row[event];
    if weight < ABSENT {
        row_lanes(row, through, weight);
    }
}
